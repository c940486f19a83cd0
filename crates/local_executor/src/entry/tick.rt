//! Ticks of an executor of one thread.
ghost use Rattle.std.specs.Prelude.{IsSome};

use crate::body::Body;
use crate::entry::{LocalExWaker, Unlocked};
use crate::ticking;
use async_task::{Future, NoMemory, Poll, Wake};
use solo::Ticker;
use std::sync::Wait;

/// Waits for a future that has to be polled, and polls it once: a future with output `Ok(())`. After it was ready it serves as a
/// new one. Where it had been notified, its drop notifies another tick or run.
///
/// It is made by `LocalExecutor::tick` or `StaticLocalExecutor::tick`.
#[must_use]
pub struct LocalTick<'a, F: Drop, T: Drop, W: Wake + Drop, R: Wait + Copy + Drop> {
    pub(crate) executor: &'a Body<F, T, W, R>,
    /// The tick, which is out only while it is polled.
    pub(crate) ticker: Option<Ticker>,
}

impl<F, T: Drop, W: Wake + Drop, R: Wait + Copy + Drop> Future<LocalExWaker<W, R>>
    for LocalTick<'_, F, T, W, R>
where
    F: Future<LocalExWaker<W, R>, Output = T> + Drop,
{
    type Output = Result<(), NoMemory>;

    /// Runs a task, and is ready, or falls asleep and is pending. Where it is refused it keeps its room, and can be polled again.
    fn poll(&mut self, waker: &LocalExWaker<W, R>) -> Poll<Result<(), NoMemory>>
        ensures { IsSome self.old.ticker → IsSome self.new.ticker }
    {
        self.look(waker, &mut Unlocked::at_entry())
    }
}

impl<F: Drop, T: Drop, W: Wake + Drop, R: Wait + Copy + Drop> Drop for LocalTick<'_, F, T, W, R> {
    /// Leaves the sleepers, and gives its room there back.
    fn drop(self) {
        let LocalTick { executor, ticker } = self;
        if let Some(ticker) = ticker {
            ticking::leave(&executor.link, ticker, &mut Unlocked::at_entry());
        }
    }
}
