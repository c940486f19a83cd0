//! The handles of a script's futures.
use crate::outside::{ScriptCancel, ScriptTask, ScriptWaker};
use async_task::{Awaiter, Future, Runtime};
use player_parts::{Answer, Await, Bell, Hold, answer_of_cancel, answer_of_task};

/// The handle of a future, as futures see it.
pub trait HoldIn<R: Runtime>: Hold + Await<ScriptWaker<R>> {
    fn of(task: ScriptTask<R>) -> Self;
}

/// The handle of a future.
#[derive(Drop)]
pub enum Handle<R: Runtime> {
    Task(ScriptTask<R>),
    /// It has cancelled the future.
    Cancel(ScriptCancel<R>),
}

impl<R: Runtime> HoldIn<R> for Handle<R> {
    fn of(task: ScriptTask<R>) -> Self {
        Handle::Task(task)
    }
}

impl<R: Runtime> Await<ScriptWaker<R>> for Handle<R> {
    fn poll(&mut self, waker: &ScriptWaker<R>) -> Answer {
        match self {
            Handle::Task(task) => answer_of_task(task.poll(waker)),
            Handle::Cancel(cancel) => answer_of_cancel(cancel.poll(waker)),
        }
    }
}

impl<R: Runtime> Hold for Handle<R> {
    fn poll_by(&mut self, bell: Bell) -> Answer {
        let waker = Awaiter::Outside(bell);
        match self {
            Handle::Task(task) => answer_of_task(task.poll(&waker)),
            Handle::Cancel(cancel) => answer_of_cancel(cancel.poll(&waker)),
        }
    }

    fn cancel(self) -> Self {
        match self {
            Handle::Task(task) => Handle::Cancel(task.cancel()),
            Handle::Cancel(cancel) => Handle::Cancel(cancel),
        }
    }

    fn detach(self) {
        match self {
            Handle::Task(task) => drop(task.detach()),
            Handle::Cancel(cancel) => drop(cancel),
        }
    }
}
