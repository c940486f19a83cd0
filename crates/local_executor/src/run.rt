//! How a run is polled, and ends.
ghost use Rattle.std.specs.Prelude.{◌≡◌, Some};
ghost use Rattle.local_executor.specs.Runs.{IsRunAnswer};

use crate::body::Body;
use crate::entry::{LocalExWaker, LocalRun, Unlocked};
use crate::errors::RunError;
use crate::foreign::{Foreign, let_go};
use crate::link::Link;
use crate::sections;
use crate::starts::Starts;
use crate::ticking::{Looked, Step};
use async_task::{Future, Poll, Wake};
use executor_parts::EntryPlace;
use solo::{Found, Missed, Ran, RunLeft, Runner, Ticker};
use std::mem;
use std::sync::Wait;

/// A run, as the state under the lock knows it. It has no drop: it leaves.
#[must_use]
pub struct Running {
    pub runner: Runner,
    pub ticker: Ticker,
}

/// How far a poll of a run has got.
#[must_use]
pub enum RunStep {
    /// It has taken this, and goes on once that is run.
    Took(Found<EntryPlace>),
    /// It has taken this, and lets others go first once that is run.
    TookLast(Found<EntryPlace>),
    /// It searches again.
    Again,
    /// It sleeps, or its waker was called.
    Pending,
    /// No copy of the waker could be had.
    NoMemory,
}

/// A run, and how far its poll has got.
#[must_use]
pub struct Sought {
    running: Running,
    step: RunStep,
    has_walked: bool,
}

impl<F, T: Drop, W: Wake + Drop, R: Wait + Copy + Drop, G> LocalRun<'_, F, T, W, R, G>
where
    F: Future<LocalExWaker<W, R>, Output = T> + Drop,
    G: Future<LocalExWaker<W, R>> + Drop,
{
    /// Polls its future, and then runs tasks.
    ///
    /// 1. At the first poll, puts its own queue into the list that other runs walk round.
    /// 2. Polls its future. Where that is ready, the run leaves the executor, and is ready.
    /// 3. Takes tasks and runs each. Where there is none to take, it falls asleep and is pending.
    /// 4. After 200 tasks it wakes its own waker and is pending. A count that was interrupted goes on in the next poll.
    pub(crate) fn go_on(
        &mut self,
        waker: &LocalExWaker<W, R>,
        unlocked: &mut Unlocked,
    ) -> Poll<Result<G::Output, RunError>>
        ensures { IsRunAnswer self.old.future self.new.future result }
    {
        let executor = self.executor;
        let Some(future) = &mut self.future else {
            return Poll::Ready(Err(RunError::Finished));
        };
        if let Some(running) = &self.running {
            sections::run_begin(executor.link.lock(unlocked).get(), &running.runner);
        }
        match future.poll(waker, unlocked) {
            Poll::Ready(output) => {
                let_go(mem::replace(&mut self.future, None), unlocked);
                if let Some(running) = mem::replace(&mut self.running, None) {
                    leave(&executor.link, running, unlocked);
                }
                Poll::Ready(Ok(output))
            }
            Poll::Pending => {
                match executor.take_tasks(&mut self.running, &mut self.starts, waker, unlocked) {
                    Ok(()) => Poll::Pending,
                    Err(NoCopy) => Poll::Ready(Err(RunError::NoMemory)),
                }
            }
        }
    }
}

/// No copy of a waker could be had.
pub struct NoCopy;

impl<F, T: Drop, W: Wake + Drop, R: Wait + Copy + Drop> Body<F, T, W, R>
where
    F: Future<LocalExWaker<W, R>, Output = T> + Drop,
{
    /// Takes tasks and runs each, one at least where one is found.
    fn take_tasks(
        &self,
        running: &mut Option<Running>,
        starts: &mut Starts,
        waker: &LocalExWaker<W, R>,
        unlocked: &mut Unlocked,
    ) -> Result<(), NoCopy> {
        for _ in self.link.rt().forever() {
            match self.step(running, starts, waker, unlocked) {
                RunStep::Took(found) => {
                    self.run_found(found, unlocked);
                }
                RunStep::TookLast(found) => {
                    self.run_found(found, unlocked);
                    call(waker, unlocked);
                    return Ok(());
                }
                RunStep::Again => {}
                RunStep::Pending => return Ok(()),
                RunStep::NoMemory => return Err(NoCopy),
            }
        }
        unreachable!()
    }

    fn step(
        &self,
        kept: &mut Option<Running>,
        starts: &mut Starts,
        waker: &LocalExWaker<W, R>,
        unlocked: &mut Unlocked,
    ) -> RunStep {
        let Some(running) = mem::replace(kept, None) else {
            return RunStep::Pending;
        };
        let Sought {
            running,
            step,
            has_walked,
        } = self.seek(running, starts.next(), waker, unlocked);
        starts.use_up(has_walked);
        match mem::replace(kept, Some(running)) {
            None => {}
            Some(other) => leave(&self.link, other, unlocked),
        }
        step
    }
}

impl<F: Drop, T: Drop, W: Wake + Drop, R: Wait + Copy + Drop> Body<F, T, W, R> {
    /// A run looks for a task, and walks from this starting word on. Where there is none it falls asleep.
    fn seek(
        &self,
        running: Running,
        start: u64,
        waker: &LocalExWaker<W, R>,
        unlocked: &mut Unlocked,
    ) -> Sought {
        let Running { runner, ticker } = running;
        let mut runner = runner;
        let searched = sections::run_search(
            self.link.lock(unlocked).get(),
            &mut runner,
            ticker,
            start,
        );
        match searched {
            Ok(ran) => self.ran(runner, ran, unlocked),
            Err(Missed { ticker, has_walked }) => {
                let Looked { ticker, step } = self.fall_asleep(ticker, waker, unlocked);
                Sought {
                    running: Running { runner, ticker },
                    step: step_of(step, false),
                    has_walked,
                }
            }
        }
    }

    /// Calls and drops the wakers that a look answers.
    fn ran(
        &self,
        runner: Runner,
        ran: Ran<EntryPlace, Foreign<W>>,
        unlocked: &mut Unlocked,
    ) -> Sought {
        let Ran {
            ticked,
            gives_way,
            has_walked,
        } = ran;
        let Looked { ticker, step } = self.looked(ticked, unlocked);
        Sought {
            running: Running { runner, ticker },
            step: step_of(step, gives_way),
            has_walked,
        }
    }
}

fn step_of(step: Step, gives_way: bool) -> RunStep {
    match step {
        Step::Took(found) => {
            if gives_way {
                RunStep::TookLast(found)
            } else {
                RunStep::Took(found)
            }
        }
        Step::Again => RunStep::Again,
        Step::Pending => RunStep::Pending,
        Step::NoMemory => RunStep::NoMemory,
    }
}

/// Calls a waker that the caller keeps.
fn call<W: Wake + Drop, R: Wait + Copy + Drop>(
    waker: &LocalExWaker<W, R>,
    unlocked: &mut Unlocked,
) {
    match waker {
        LocalExWaker::Task(waker) => waker.link.wake(waker.task, unlocked),
        LocalExWaker::Outside(waker) => waker.wake_by_ref(),
    }
}

/// Ends a run.
///
/// 1. Drops its future.
/// 2. Takes its own queue out of the list, and schedules each task that is left in the queue, in order.
/// 3. Leaves the sleepers, and gives its room there back.
pub fn end<W: Wake + Drop, R: Wait + Copy + Drop, G: Drop>(
    link: &Link<W, R>,
    future: Option<Foreign<G>>,
    running: Option<Running>,
    unlocked: &mut Unlocked,
) {
    let_go(future, unlocked);
    if let Some(running) = running {
        leave(link, running, unlocked);
    }
}

fn leave<W: Wake + Drop, R: Wait + Copy + Drop>(
    link: &Link<W, R>,
    running: Running,
    unlocked: &mut Unlocked,
) {
    let Running { runner, ticker } = running;
    let mut leaving = sections::run_leave(link.lock(unlocked).get(), runner, ticker);
    for _ in link.rt().forever() {
        let left = sections::run_drain(link.lock(unlocked).get(), leaving);
        match left {
            RunLeft::Scheduled(rest, told) => {
                link.pay_told(told, unlocked);
                leaving = rest;
            }
            RunLeft::Gone(dropped) => {
                link.pay_dropped(dropped, unlocked);
                return;
            }
        }
    }
    unreachable!()
}
