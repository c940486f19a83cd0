//! The waker that a poll is lent.
use crate::entry::{LocalExWaker, LocalWaker, Unlocked};
use crate::foreign::Foreign;
use crate::link::Link;
use async_task::Wake;
use solo::Task;
use std::sync::Wait;

/// The waker of a task that is polled. It isn't counted, since the task is there for as long as the poll goes. So it has no drop:
/// it is taken apart.
#[must_use]
pub struct LentWaker<W: Wake + Drop, R: Wait + Copy + Drop> {
    waker: LocalExWaker<W, R>,
}

impl<W: Wake + Drop, R: Wait + Copy + Drop> LentWaker<W, R> {
    ghost use Rattle.std.specs.Prelude.{◌≡◌};
    ghost use Rattle.local_executor.specs.declared.entry.wakers.LocalExWaker.TheVariants as waker;

    /// Makes the waker of the task that is about to be polled.
    #[inline(always)]
    pub fn of(link: Link<W, R>, task: Task) -> Self
        ensures { result.waker ≡ waker.Task (record { link = link; task = task }) }
    {
        LentWaker {
            waker: LocalExWaker::Task(LocalWaker { link, task }),
        }
    }

    /// What is lent to the poll.
    #[inline(always)]
    pub fn waker(&self) -> &LocalExWaker<W, R>
        ensures { result.now ≡ self.now.waker }
    {
        &self.waker
    }

    /// Ends it, as the poll is over.
    #[inline(always)]
    pub fn end(self, unlocked: &Unlocked) {
        let LentWaker { waker } = self;
        match waker {
            LocalExWaker::Task(waker) => waker.forget(),
            LocalExWaker::Outside(waker) => Foreign::of(waker).let_go(unlocked),
        }
    }
}
