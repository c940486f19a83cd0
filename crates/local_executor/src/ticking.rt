//! How a tick looks for a task, falls asleep and leaves.
ghost use Rattle.std.specs.Prelude.{IsSome};

use crate::body::Body;
use crate::copying::{Copied, copy_for};
use crate::entry::{LocalExWaker, LocalTick, Unlocked};
use crate::foreign::{Foreign, let_go};
use crate::link::Link;
use crate::sections;
use async_task::{Future, NoMemory, Poll, Wake};
use executor_parts::EntryPlace;
use solo::{Found, Look, Ticked, Ticker, Told};
use std::mem;
use std::sync::Wait;

/// How far a poll of a tick has got.
#[must_use]
pub enum Step {
    /// It has taken this.
    Took(Found<EntryPlace>),
    /// It looks again.
    Again,
    /// It sleeps, or its waker was called.
    Pending,
    /// No copy of the waker could be had.
    NoMemory,
}

/// A tick, and how far its poll has got.
#[must_use]
pub struct Looked {
    pub ticker: Ticker,
    pub step: Step,
}

/// Ends a tick.
pub fn leave<W: Wake + Drop, R: Wait + Copy + Drop>(
    link: &Link<W, R>,
    ticker: Ticker,
    unlocked: &mut Unlocked,
) {
    let dropped = sections::tick_leave(link.lock(unlocked).get(), ticker);
    link.pay_dropped(dropped, unlocked);
}

impl<F, T: Drop, W: Wake + Drop, R: Wait + Copy + Drop> LocalTick<'_, F, T, W, R>
where
    F: Future<LocalExWaker<W, R>, Output = T> + Drop,
{
    /// Looks for a task and runs it, or falls asleep.
    pub(crate) fn look(
        &mut self,
        waker: &LocalExWaker<W, R>,
        unlocked: &mut Unlocked,
    ) -> Poll<Result<(), NoMemory>>
        ensures { IsSome self.old.ticker → IsSome self.new.ticker }
    {
        let executor = self.executor;
        for _ in executor.link.rt().forever() {
            match self.step(waker, unlocked) {
                Step::Took(found) => {
                    executor.run_found(found, unlocked);
                    return Poll::Ready(Ok(()));
                }
                Step::Again => {}
                Step::Pending => return Poll::Pending,
                Step::NoMemory => return Poll::Ready(Err(NoMemory)),
            }
        }
        unreachable!()
    }

    fn step(&mut self, waker: &LocalExWaker<W, R>, unlocked: &mut Unlocked) -> Step
        ensures { IsSome self.old.ticker → IsSome self.new.ticker }
    {
        let Some(ticker) = self.ticker.take() else {
            return Step::Pending;
        };
        let Looked { ticker, step } = self.executor.search(ticker, waker, unlocked);
        match mem::replace(&mut self.ticker, Some(ticker)) {
            None => {}
            Some(other) => leave(&self.executor.link, other, unlocked),
        }
        step
    }
}

impl<F: Drop, T: Drop, W: Wake + Drop, R: Wait + Copy + Drop> Body<F, T, W, R> {
    /// A tick looks for a task. Where there is none it falls asleep.
    fn search(
        &self,
        ticker: Ticker,
        waker: &LocalExWaker<W, R>,
        unlocked: &mut Unlocked,
    ) -> Looked {
        let searched = sections::tick_search(self.link.lock(unlocked).get(), ticker);
        match searched {
            Ok(ticked) => self.looked(ticked, unlocked),
            Err(ticker) => self.fall_asleep(ticker, waker, unlocked),
        }
    }

    /// A tick or run that has found no task falls asleep with a copy of its waker. One of a task of another executor can't be kept:
    /// it is called at once.
    pub(crate) fn fall_asleep(
        &self,
        ticker: Ticker,
        waker: &LocalExWaker<W, R>,
        unlocked: &mut Unlocked,
    ) -> Looked {
        match copy_for(&self.link, waker, unlocked) {
            Copied::Kept(copy) => {
                let ticked = sections::tick_sleep(self.link.lock(unlocked).get(), ticker, copy);
                self.looked(ticked, unlocked)
            }
            Copied::Called => Looked {
                ticker,
                step: Step::Pending,
            },
            Copied::Refused => Looked {
                ticker,
                step: Step::NoMemory,
            },
        }
    }

    /// Calls and drops the wakers that a look answers.
    pub(crate) fn looked(
        &self,
        ticked: Ticked<EntryPlace, Foreign<W>>,
        unlocked: &mut Unlocked,
    ) -> Looked {
        let Ticked {
            ticker,
            look,
            sleeper,
            old,
            spare,
            returned,
        } = ticked;
        self.link.pay_told(Told { sleeper, returned }, unlocked);
        let_go(old, unlocked);
        self.link.let_go(spare, unlocked);
        let step = match look {
            Look::Took(found) => Step::Took(found),
            Look::Again => Step::Again,
            Look::Nothing => Step::Pending,
        };
        Looked { ticker, step }
    }
}
