ghost use Rattle.std.specs.Prelude.{◌≡◌, IfErr, IfOk, MatchOption, None, Some};
ghost use Rattle.async_task.specs.declared.runnable.Started.TheVariants.{Poll};
ghost use Rattle.async_task.specs.Rests.{was_woken_by};
ghost use Rattle.async_task.specs.Runs.{BeginsAt, was_closed};

use crate::bounds::{Output, OutsideWaker};
use crate::cell::{
    Due, Held, Kept, Remains, Rest, RunnableToken, Scheduled, Site, Woken, pay_due, was_woken,
};
use crate::lent::LentWaker;
use crate::look::TooManyReferences;
use crate::poll::Future;
use crate::running::Running;
use crate::schedule::{Schedule, ScheduleInfo};
use crate::waker::{Awaiter, TaskWaker};
use std::marker::Model;
use std::sync::Wait;
use task_word::tokens::{ClosedRun, ClosedRunnable};

/// A task that is to be run: at most one is there of a task. Its drop closes the task, and drops the
/// future.
pub struct Runnable<F, T: Output, S, M, W: OutsideWaker, R>
where
    F: Drop + 'static,
    S: Schedule<Scheduled<F, T, S, M, W, R>> + Drop + 'static,
    M: Copy + Drop + 'static,
    R: Wait + Copy + Drop,
{
    pub(crate) held: Held<F, T, S, M, W, R>,
    pub(crate) token: RunnableToken<F, T, W>,
}

impl<F, T: Output, S, M, W: OutsideWaker, R> Model for Runnable<F, T, S, M, W, R>
where
    F: Drop + 'static,
    S: Schedule<Scheduled<F, T, S, M, W, R>> + Drop + 'static,
    M: Copy + Drop + 'static,
    R: Wait + Copy + Drop,
{
    ghost use Rattle.async_task.specs.Handles.{Handle};

    ghost Value = { Handle M };

    ghost view = { λ h. h.held };
}

/// What a Runnable begins.
#[must_use]
pub enum Started<F, T: Output, S, M, W: OutsideWaker, R>
where
    F: Drop + 'static,
    S: Schedule<Scheduled<F, T, S, M, W, R>> + Drop + 'static,
    M: Copy + Drop + 'static,
    R: Wait + Copy + Drop,
{
    /// The future is polled, with the run's waker, and the run is then settled.
    Poll(F, Running<F, T, S, M, W, R>),
    /// The task is closed: the future is dropped, and the call is then finished.
    Drop(F, Closing<F, T, S, M, W, R>),
}

/// The right of a closed task whose future is being dropped: before a poll, or after one; or what is left where nobody can
/// reach the task any more.
pub(crate) enum Closed<F: 'static, T: 'static, W: 'static> {
    Runnable(ClosedRunnable<F, T, Kept<W>>),
    Run(ClosedRun<F, T, Kept<W>>),
    Left(Remains<F, T, W>),
}

/// A call that closes a task whose future is being dropped. It has no drop: it is finished.
#[must_use]
pub struct Closing<F, T: Output, S, M, W: OutsideWaker, R>
where
    F: Drop + 'static,
    S: Schedule<Scheduled<F, T, S, M, W, R>> + Drop + 'static,
    M: Copy + Drop + 'static,
    R: Wait + Copy + Drop,
{
    pub(crate) held: Held<F, T, S, M, W, R>,
    pub(crate) closed: Closed<F, T, W>,
}

/// A poll that gave no output, while its task is neither closed nor out of reach. It has no drop: it is finished.
#[must_use]
pub struct Pause<F, T: Output, S, M, W: OutsideWaker, R>
where
    F: Drop + 'static,
    S: Schedule<Scheduled<F, T, S, M, W, R>> + Drop + 'static,
    M: Copy + Drop + 'static,
    R: Wait + Copy + Drop,
{
    pub(crate) held: Held<F, T, S, M, W, R>,
    pub(crate) remains: Remains<F, T, W>,
}

/// How a run ends.
#[must_use]
pub enum RunEnd<F, T: Output, S, M, W: OutsideWaker, R>
where
    F: Drop + 'static,
    S: Schedule<Scheduled<F, T, S, M, W, R>> + Drop + 'static,
    M: Copy + Drop + 'static,
    R: Wait + Copy + Drop,
{
    /// It is over: the future gave its output.
    Over,
    /// The future gave no output: the call is finished, by which a task that was woken during the poll is
    /// handed to its schedule value.
    Pause(Pause<F, T, S, M, W, R>),
    /// The task was closed during the poll, or nobody can reach it any more: the future is dropped,
    /// and the call is then finished.
    Drop(F, Closing<F, T, S, M, W, R>),
}

impl<F, T: Output, S, M, W: OutsideWaker, R> Runnable<F, T, S, M, W, R>
where
    F: Drop + 'static,
    S: Schedule<Scheduled<F, T, S, M, W, R>> + Drop + 'static,
    M: Copy + Drop + 'static,
    R: Wait + Copy + Drop,
{
    /// The metadata that the task was made with.
    pub fn metadata(&self) -> &M
        ensures { result.now ≡ self.now.metadata }
    {
        self.held.metadata()
    }

    /// Hands the Runnable to the schedule value of its task.
    pub fn schedule(self) {
        let Self { held, token } = self;
        let info = ScheduleInfo {
            woken_while_running: false,
        };
        let task = held.share();
        task.hand_over(Scheduled { held, token }, info);
    }

    /// A waker of the task, unless it has 2^40 references already.
    #[inline(always)]
    pub fn waker(&self) -> Result<TaskWaker<F, T, S, M, W, R>, TooManyReferences>
        ensures { IfOk result (λ waker. waker ≡ self.now) }
    {
        match self.held.hold() {
            Ok(token) => Ok(TaskWaker::of(self.held.share(), token)),
            Err(refused) => Err(refused),
        }
    }

    /// The Runnable for a queue.
    #[inline(always)]
    pub fn into_scheduled(self) -> Scheduled<F, T, S, M, W, R>
        ensures { result ≡ self }
    {
        let Self { held, token } = self;
        Scheduled { held, token }
    }

    /// One try of taking the future out to be polled. The Runnable comes back where its task is closed, or somebody else stepped
    /// meanwhile; `start` takes it then.
    #[inline(always)]
    pub fn start_once(self) -> Result<(F, Running<F, T, S, M, W, R>), Self>
        ensures begins { IfOk result (λ started. BeginsAt self (Poll started.0 started.1)) }
        ensures back { IfErr result (λ back. back ≡ self) }
    {
        let Self { held, token } = self;
        match token.take_up_once() {
            Ok(run) => {
                let (run, future) = run.ready();
                let waker = Awaiter::Lent(LentWaker::of(held));
                Ok((future.pay(), Running { waker, run }))
            }
            Err(token) => Err(Runnable { held, token }),
        }
    }

    /// Takes the future out: to be polled, or to be dropped where the task is closed.
    #[inline(always)]
    pub fn start(self) -> Started<F, T, S, M, W, R>
        ensures { BeginsAt self result }
    {
        let Self { held, token } = self;
        match token.take_up(&held.rt()).1 {
            Ok(run) => {
                let (run, future) = run.ready();
                let waker = Awaiter::Lent(LentWaker::of(held));
                Started::Poll(future.pay(), Running { waker, run })
            }
            Err((closed, future)) => {
                let closed = Closed::Runnable(closed);
                Started::Drop(future.pay(), Closing { held, closed })
            }
        }
    }
}

impl<F, T: Output, S, M, W: OutsideWaker, R> Runnable<F, T, S, M, W, R>
where
    F: Future<Awaiter<F, T, S, M, W, R>, Output = T> + Drop + 'static,
    S: Schedule<Scheduled<F, T, S, M, W, R>> + Drop + 'static,
    M: Copy + Drop + 'static,
    R: Wait + Copy + Drop,
{
    /// Polls the future once, or drops it where the task is closed. The answer is true exactly where the task was woken during the
    /// poll and not closed. It was then handed to its schedule value, which was passed the same.
    pub fn run(self) -> bool {
        match self.start_once() {
            Ok((future, running)) => running.poll(future),
            Err(runnable) => runnable.run_apart(),
        }
    }

    /// The same of a task that one try didn't take up.
    #[cold]
    #[inline(never)]
    fn run_apart(self) -> bool {
        match self.start() {
            Started::Poll(future, running) => running.poll(future),
            Started::Drop(future, closing) => {
                drop(future);
                closing.finish();
                false
            }
        }
    }
}

impl<F, T: Output, S, M, W: OutsideWaker, R> Closing<F, T, S, M, W, R>
where
    F: Drop + 'static,
    S: Schedule<Scheduled<F, T, S, M, W, R>> + Drop + 'static,
    M: Copy + Drop + 'static,
    R: Wait + Copy + Drop,
{
    /// Whether the task was closed: else nobody can reach it any more.
    #[inline(always)]
    pub fn was_closed(&self) -> bool
        ensures { result ≡ was_closed self.now.closed }
    {
        match &self.closed {
            Closed::Runnable(_) | Closed::Run(_) => true,
            Closed::Left(_) => false,
        }
    }

    /// Ends the call, once the future is dropped. The awaiter of a closed task is woken, and that of a task that nobody can reach
    /// is dropped.
    pub fn finish(self) {
        let Self { held, closed } = self;
        match closed {
            Closed::Runnable(closed) => held.leave(closed.settle(&held.rt()).1),
            Closed::Run(closed) => held.leave(closed.settle(&held.rt()).1),
            Closed::Left(Remains { owed, left }) => held.pay(held.site().left(owed, left)),
        }
    }
}

impl<F, T: Output, S, M, W: OutsideWaker, R> Pause<F, T, S, M, W, R>
where
    F: Drop + 'static,
    S: Schedule<Scheduled<F, T, S, M, W, R>> + Drop + 'static,
    M: Copy + Drop + 'static,
    R: Wait + Copy + Drop,
{
    /// Ends the call. The answer is whether the task was woken during the poll, and was handed to its
    /// schedule value.
    #[inline(always)]
    pub fn finish(self) -> bool
        ensures { result ≡ was_woken_by self.remains.owed.schedule }
    {
        let Self { held, remains } = self;
        let Remains { owed, left } = remains;
        let rest = held.site().left(owed, left);
        let woken = was_woken(&rest);
        held.pay(rest);
        woken
    }

    /// Ends the call, as `finish` does, except that a task that was woken during the poll is the answer. It is for a caller that
    /// knows where the schedule value would queue it, and queues it there.
    #[inline(always)]
    pub fn into_due(self) -> Option<Due<F, T, S, M, W, R>>
        ensures told { MatchOption result (self.remains.owed.schedule ≡ None)
            (λ due. (due.runnable ≡ self.held) × (self.remains.owed.schedule ≡ Some due.info)) }
    {
        let Self { held, remains } = self;
        let Remains { owed, left } = remains;
        match held.site().left(owed, left) {
            Rest::Queue(Woken { token, info }) => Some(Due {
                runnable: Scheduled { held, token },
                info,
            }),
            Rest::Drop(kept) => {
                pay_due(Site::let_go(held.rt(), held.realm(), kept));
                None
            }
            Rest::Nothing => None,
        }
    }
}

impl<F, T: Output, S, M, W: OutsideWaker, R> Drop for Runnable<F, T, S, M, W, R>
where
    F: Drop + 'static,
    S: Schedule<Scheduled<F, T, S, M, W, R>> + Drop + 'static,
    M: Copy + Drop + 'static,
    R: Wait + Copy + Drop,
{
    fn drop(self) {
        let Self { held, token } = self;
        pay_due(Scheduled { held, token }.close());
    }
}
