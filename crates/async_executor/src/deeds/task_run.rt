//! A task while it is run. Its end calls the awaiter, so it is lent an `Unlocked`.
ghost use Rattle.std.specs.Prelude.{◌≡◌, ◌∷◌, true, Some, IfErr, IfOk, IfSome};
ghost use Rattle.task_moves.specs.declared.moves.owed.Move.TheVariants as move;
ghost use Rattle.async_task.specs.Awaiters.{identity_of};
ghost use Rattle.async_task.specs.Runs.{was_closed};
ghost use Rattle.call_steps.specs.Todo.{below, top};
ghost use Rattle.call_steps.specs.declared.step.CallStep.TheVariants as step;
ghost use Rattle.call_steps.specs.declared.step.table.QueueStep.TheVariants as queue_step;
ghost use Rattle.call_steps.specs.declared.step.table.TableStep.TheVariants as table_step;
ghost use Rattle.async_executor.specs.Polling.{dropped_by, end_by, end_step, IsEndOf};

use crate::body::Body;
use crate::deeds::Steps;
use crate::entry::Unlocked;
use crate::marked::Marked;
use crate::names::{ExClosing, ExDue, ExRunEnd, ExRunning, ExWaker};
use crate::task_name::TaskName;
use async_task::moves::{FutureDebt, Move, Owed};
use async_task::{Back, Due, Future, Output, OutsideWaker, RunEnd, Runtime, ScheduleInfo};
use call_steps::Saw;
use executor_parts::EntryPlace;
use std::snapshot::Snapshot;

/// A run whose future is polled. It has no drop: it is settled.
#[must_use]
pub struct Polling<T: Output, W: OutsideWaker, R: Runtime> {
    running: ExRunning<T, W, R>,
}

/// A run whose future is dropped. It has no drop: it is finished.
#[must_use]
pub struct Dropping<T: Output, W: OutsideWaker, R: Runtime> {
    closing: ExClosing<T, W, R>,
    // By which move it ends, where the task was closed.
    ends: Snapshot<Move>,
}

impl<T: Output, W: OutsideWaker, R: Runtime> Polling<T, W, R> {
    /// A task was taken up, and its future is to be polled.
    #[inline(always)]
    pub fn begin(running: ExRunning<T, W, R>, name: &TaskName, steps: &mut Steps) -> Self
        requires named { identity_of running.waker ≡ Some name.now }
        requires taken_up { top steps.old ≡ Some (step.Move move.TakeUp name.now) }
        ensures steps { steps.new ≡ step.Table (table_step.TakeToPoll name.now) ∷ below steps.old }
        ensures named { identity_of result.running.waker ≡ Some name.now }
    {
        let _ = name;
        steps.see_future(FutureDebt::PollFuture, None);
        Polling { running }
    }

    /// The waker that the future is polled with.
    #[inline(always)]
    pub fn waker(&self) -> &ExWaker<T, W, R> {
        self.running.waker()
    }

    /// Ends the run of a polled future of this executor, with no lock held. A task that was woken meanwhile is queued, and one
    /// that was closed meanwhile loses its future. The outcome is matched where it is answered, as it is large.
    #[inline(always)]
    pub fn settle<F>(
        self,
        body: &Body<F, T, W, R>,
        back: Back<EntryPlace, T>,
        name: &TaskName,
        steps: &mut Steps,
        unlocked: &mut Unlocked,
    )
    where
        F: Future<ExWaker<T, W, R>, Output = T> + Drop,
        requires named { identity_of self.running.waker ≡ Some name.now }
        requires ends { top steps.old ≡ Some (step.Move (end_by back) name.now) }
        ensures { steps.new ≡ below steps.old }
    {
        match back {
            Back::Ready(output) => {
                self.settle_in_all(body, Back::Ready(output), name, steps, unlocked)
            }
            Back::Pending(place) => match self.pause_once(place, name, unlocked) {
                Ok(due) => end_pending(body, due, name, steps, unlocked),
                Err((polling, place)) => {
                    polling.settle_apart(body, place, name, steps, unlocked)
                }
            },
        }
    }

    /// One try of the end of a poll without an output. It comes back where that takes more.
    #[inline(always)]
    fn pause_once(
        self,
        place: EntryPlace,
        name: &TaskName,
        unlocked: &Unlocked,
    ) -> Result<Option<ExDue<T, W, R>>, (Self, EntryPlace)>
        requires { identity_of self.running.waker ≡ Some name.now }
        ensures due { IfOk result (λ due. IfSome due (λ due. due.runnable.identity ≡ name.now)) }
        ensures back { IfErr result (λ back. identity_of back.0.running.waker ≡ Some name.now) }
    {
        let (_, _) = (unlocked, name);
        let Polling { running } = self;
        match running.pause_once(place) {
            Ok(due) => Ok(due),
            Err((running, place)) => Err((Polling { running }, place)),
        }
    }

    /// The end of a poll without an output that one try didn't make.
    #[cold]
    #[inline(never)]
    fn settle_apart<F>(
        self,
        body: &Body<F, T, W, R>,
        place: EntryPlace,
        name: &TaskName,
        steps: &mut Steps,
        unlocked: &mut Unlocked,
    )
    where
        F: Future<ExWaker<T, W, R>, Output = T> + Drop,
        requires named { identity_of self.running.waker ≡ Some name.now }
        requires ends { top steps.old ≡ Some (step.Move move.EndPending name.now) }
        ensures { steps.new ≡ below steps.old }
    {
        self.settle_in_all(body, Back::Pending(place), name, steps, unlocked)
    }

    #[inline(always)]
    fn settle_in_all<F>(
        self,
        body: &Body<F, T, W, R>,
        back: Back<EntryPlace, T>,
        name: &TaskName,
        steps: &mut Steps,
        unlocked: &mut Unlocked,
    )
    where
        F: Future<ExWaker<T, W, R>, Output = T> + Drop,
        requires named { identity_of self.running.waker ≡ Some name.now }
        requires ends { top steps.old ≡ Some (step.Move (end_by back) name.now) }
        ensures { steps.new ≡ below steps.old }
    {
        match self.end(back, name, unlocked) {
            RunEnd::Over => steps.see_moved(false),
            RunEnd::Pause(pause) => end_pending(body, pause.into_due(), name, steps, unlocked),
            RunEnd::Drop(place, closing) => {
                let dropping = Dropping::left(closing, name, steps);
                body.drop_future(place, dropping, name, steps, unlocked);
            }
        }
    }

    #[inline(always)]
    fn end(
        self,
        back: Back<EntryPlace, T>,
        name: &TaskName,
        unlocked: &Unlocked,
    ) -> ExRunEnd<T, W, R>
        requires { identity_of self.running.waker ≡ Some name.now }
        ensures { IsEndOf back result name.now }
    {
        let (_, _) = (unlocked, name);
        let Polling { running } = self;
        running.settle(back)
    }
}

impl<T: Output, W: OutsideWaker, R: Runtime> Dropping<T, W, R> {
    /// A closed task was taken up: its future has to be dropped.
    pub fn begin(closing: ExClosing<T, W, R>, name: &TaskName, steps: &mut Steps) -> Self
        requires closed { was_closed closing.closed ≡ true }
        requires taken_up { top steps.old ≡ Some (step.Move move.TakeUp name.now) }
        ensures { steps.new ≡ dropped_by result name.now (below steps.old) }
    {
        let _ = name;
        steps.see_future(FutureDebt::DropFuture, Some(Move::SettleClosed));
        Dropping::by(closing, Move::SettleClosed)
    }

    /// A poll has ended of a task whose future has to be dropped: it was closed meanwhile, or nobody can reach it any more.
    pub fn left(closing: ExClosing<T, W, R>, name: &TaskName, steps: &mut Steps) -> Self
        requires { top steps.old ≡ Some (step.Move move.EndPending name.now) }
        ensures { steps.new ≡ dropped_by result name.now (below steps.old) }
    {
        let _ = name;
        let closed = closing.was_closed();
        let dropping = Dropping::by(closing, Move::EndClosed);
        if closed {
            steps.see_future(FutureDebt::DropFuture, Some(Move::EndClosed));
        } else {
            steps.see_forgotten();
        }
        dropping
    }

    /// One that ends by this move, where the task was closed.
    fn by(closing: ExClosing<T, W, R>, ends: Move) -> Self
        ensures closing { result.closing ≡ closing }
        ensures ends { result.ends.value ≡ ends }
    {
        Dropping {
            closing,
            ends: Snapshot::of(&ends),
        }
    }

    /// Ends the run, with no lock held, once the future is dropped.
    pub fn finish(self, name: &TaskName, steps: &mut Steps, unlocked: &Unlocked)
        requires { top steps.old ≡ Some (end_step self name.now) }
        ensures { steps.new ≡ below steps.old }
    {
        let (_, _) = (unlocked, name);
        let Dropping { closing, ends: _ } = self;
        let was_closed = closing.was_closed();
        closing.finish();
        if was_closed {
            steps.see_moved(false);
        } else {
            steps.follow(Saw::Awaiter(false, None));
        }
    }
}

/// A poll has ended without an output: its task is queued where it was woken meanwhile.
#[inline(always)]
fn end_pending<F, T: Output, W: OutsideWaker, R: Runtime>(
    body: &Body<F, T, W, R>,
    due: Option<ExDue<T, W, R>>,
    name: &TaskName,
    steps: &mut Steps,
    unlocked: &mut Unlocked,
)
where
    F: Future<ExWaker<T, W, R>, Output = T> + Drop,
    requires due { IfSome due (λ due. due.runnable.identity ≡ name.now) }
    requires ends { top steps.old ≡ Some (step.Move move.EndPending name.now) }
    ensures { steps.new ≡ below steps.old }
{
    match due {
        Some(Due { runnable, info: _ }) => {
            see_due(name, steps);
            let marked = Marked::of(runnable);
            body.state
                .push_and_pay(body.rt, body.realm, steps, marked, unlocked);
        }
        None => steps.see_moved(false),
    }
}

/// A task was woken while it was polled: its Runnable has to be queued, and all else is done.
#[inline(always)]
fn see_due(name: &TaskName, steps: &mut Steps)
    requires { top steps.old ≡ Some (step.Move move.EndPending name.now) }
    ensures { steps.new ≡ step.Queue (queue_step.Append name.now) ∷ below steps.old }
{
    let _ = name;
    let info = ScheduleInfo {
        woken_while_running: true,
    };
    let owed = Owed {
        schedule: Some(info),
        future: None,
        drop_output: false,
        awaiter: None,
        next: None,
        answer: None,
        empty_cell: false,
    };
    steps.follow(Saw::Moved(false, owed));
}
