//! The handle of a task in a pool.
ghost use Rattle.std.specs.Prelude.{◌≡◌};

use async_executor::ExTask;
use async_task::{Detached, Runtime};
use blocking::ThreadWaker;

/// The handle of a task in a pool. Its drop cancels the task.
#[must_use]
pub struct Handle<R: Runtime> {
    task: ExTask<(), ThreadWaker, R>,
}

impl<R: Runtime> Handle<R> {
    pub(crate) fn of(task: ExTask<(), ThreadWaker, R>) -> Self
        ensures { result.task ≡ task }
    {
        Handle { task }
    }

    /// Lets the future run on, though nobody awaits it. The answer shows that the task was not cancelled, and may be dropped.
    pub fn detach(self) -> Detached {
        let Handle { task } = self;
        task.detach()
    }
}

// Written out, so that crates above call it.
impl<R: Runtime> Drop for Handle<R> {
    fn drop(self) {
        let Handle { task: _task } = self;
    }
}
