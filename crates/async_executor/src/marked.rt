//! A Runnable that has to be appended, with the mark of its task.
ghost use Rattle.std.specs.Prelude.{◌≡◌};

use crate::names::{ExScheduled, ExStoredRunnable};
use crate::task_name::TaskName;
use async_task::{Output, OutsideWaker, Runtime};
use executor_parts::Mark;

/// A Runnable as a queue keeps it, and its task's mark, which says into which queue it goes. It has no drop: it is appended, or
/// closed.
#[must_use]
pub struct Marked {
    pub mark: Mark,
    pub stored: ExStoredRunnable,
    ghost marked: { mark ≡ stored.metadata },
}

impl Marked {
    /// A Runnable of a task, for the queue of its mark.
    #[inline(always)]
    pub fn of<T: Output, W: OutsideWaker, R: Runtime>(runnable: ExScheduled<T, W, R>) -> Marked
        ensures task { result.stored.identity ≡ runnable.identity }
        ensures metadata { result.stored.metadata ≡ runnable.metadata }
    {
        let mark = *runnable.metadata();
        Marked {
            mark,
            stored: runnable.store(),
        }
    }

    /// Which task it is of.
    #[inline(always)]
    pub fn name(&self) -> TaskName
        ensures { result ≡ self.now.stored.identity }
    {
        TaskName::of_runnable(&self.stored)
    }
}
