//! The handles of tasks of an executor of one thread. They stay on its thread.
ghost use Rattle.std.specs.Prelude.{◌≡◌, false, true};

use crate::debug::show_handle;
use crate::entry::{LocalExWaker, Unlocked};
use crate::foreign::Foreign;
use crate::handle::{Found, Held};
use async_task::{Future, NoMemory, Poll, TaskError, Wake};
use std::fmt;
use std::sync::Wait;

/// The handle of a task, which is polled for the output. Its drop cancels the task.
#[must_use]
pub struct LocalHandle<T: Drop, W: Wake + Drop, R: Wait + Copy + Drop> {
    held: Held<T, W, R>,
}

/// The handle of a task whose closing is no error. Its drop cancels the task.
#[must_use]
pub struct LocalFallible<T: Drop, W: Wake + Drop, R: Wait + Copy + Drop> {
    held: Held<T, W, R>,
}

/// The end of a task that its handle closes. The first poll cancels it. It is ready once the future is dropped, with the output
/// where that was there before. Its drop cancels the task too.
#[must_use]
pub struct LocalCancel<T: Drop, W: Wake + Drop, R: Wait + Copy + Drop> {
    held: Held<T, W, R>,
    /// Whether a poll has cancelled it.
    is_cancelled: bool,
}

impl<T: Drop, W: Wake + Drop, R: Wait + Copy + Drop> LocalHandle<T, W, R> {
    pub(crate) fn of(held: Held<T, W, R>) -> Self
        ensures { result.held ≡ held }
    {
        LocalHandle { held }
    }

    /// Whether the future has given its output and is dropped, or is going to be dropped.
    pub fn is_finished(&self) -> bool {
        self.held.is_finished(&mut Unlocked::at_entry())
    }

    /// Gives the handle up. The task goes on, and its output is dropped.
    pub fn detach(self) {
        let LocalHandle { held } = self;
        held.leave(&mut Unlocked::at_entry());
    }

    /// Makes a future that closes the task when it is first polled, and then has the output where there was one.
    pub fn cancel(self) -> LocalCancel<T, W, R>
        ensures held { result.held ≡ self.held }
        ensures open { result.is_cancelled ≡ false }
    {
        let LocalHandle { held } = self;
        LocalCancel {
            held,
            is_cancelled: false,
        }
    }

    /// Makes the same handle, which has None for an output where the task is closed.
    pub fn fallible(self) -> LocalFallible<T, W, R>
        ensures { result.held ≡ self.held }
    {
        let LocalHandle { held } = self;
        LocalFallible { held }
    }
}

impl<T: Drop, W: Wake + Drop, R: Wait + Copy + Drop> LocalFallible<T, W, R> {
    /// Whether the future has given its output and is dropped, or is going to be dropped.
    pub fn is_finished(&self) -> bool {
        self.held.is_finished(&mut Unlocked::at_entry())
    }

    /// Gives the handle up. The task goes on, and its output is dropped.
    pub fn detach(self) {
        let LocalFallible { held } = self;
        held.leave(&mut Unlocked::at_entry());
    }

    /// Makes a future that closes the task when it is first polled, and then has the output where there was one.
    pub fn cancel(self) -> LocalCancel<T, W, R>
        ensures held { result.held ≡ self.held }
        ensures open { result.is_cancelled ≡ false }
    {
        let LocalFallible { held } = self;
        LocalCancel {
            held,
            is_cancelled: false,
        }
    }
}

impl<T: Drop, W: Wake + Drop, R: Wait + Copy + Drop> Future<LocalExWaker<W, R>>
    for LocalHandle<T, W, R> {
    type Output = Result<T, TaskError>;

    fn poll(&mut self, waker: &LocalExWaker<W, R>) -> Poll<Result<T, TaskError>>
        ensures { self.new.held ≡ self.old.held }
    {
        match self.held.poll(waker, &mut Unlocked::at_entry()) {
            Found::Output(output) => Poll::Ready(Ok(output.into_given())),
            Found::Closed => Poll::Ready(Err(TaskError::TaskClosed)),
            Found::Pending => Poll::Pending,
            Found::NoMemory => Poll::Ready(Err(TaskError::NoMemory)),
        }
    }
}

impl<T: Drop, W: Wake + Drop, R: Wait + Copy + Drop> Future<LocalExWaker<W, R>>
    for LocalFallible<T, W, R> {
    type Output = Result<Option<T>, NoMemory>;

    fn poll(&mut self, waker: &LocalExWaker<W, R>) -> Poll<Result<Option<T>, NoMemory>>
        ensures { self.new.held ≡ self.old.held }
    {
        found(self.held.poll(waker, &mut Unlocked::at_entry()))
    }
}

impl<T: Drop, W: Wake + Drop, R: Wait + Copy + Drop> Future<LocalExWaker<W, R>>
    for LocalCancel<T, W, R> {
    type Output = Result<Option<T>, NoMemory>;

    /// A poll that is refused has cancelled too.
    fn poll(&mut self, waker: &LocalExWaker<W, R>) -> Poll<Result<Option<T>, NoMemory>>
        ensures held { self.new.held ≡ self.old.held }
        ensures cancelled { self.new.is_cancelled ≡ true }
    {
        let mut unlocked = Unlocked::at_entry();
        if !self.is_cancelled {
            self.is_cancelled = true;
            self.held.cancel(&mut unlocked);
        }
        found(self.held.poll(waker, &mut unlocked))
    }
}

/// Converts an answer: None where there is no output.
fn found<T>(found: Found<T>) -> Poll<Result<Option<T>, NoMemory>> {
    match found {
        Found::Output(output) => Poll::Ready(Ok(Some(output.into_given()))),
        Found::Closed => Poll::Ready(Ok(None)),
        Found::Pending => Poll::Pending,
        Found::NoMemory => Poll::Ready(Err(NoMemory)),
    }
}

impl<T: Drop, W: Wake + Drop, R: Wait + Copy + Drop> Drop for LocalHandle<T, W, R> {
    fn drop(self) {
        let LocalHandle { held } = self;
        held.cancel_and_leave(&mut Unlocked::at_entry());
    }
}

impl<T: Drop, W: Wake + Drop, R: Wait + Copy + Drop> Drop for LocalFallible<T, W, R> {
    fn drop(self) {
        let LocalFallible { held } = self;
        held.cancel_and_leave(&mut Unlocked::at_entry());
    }
}

impl<T: Drop, W: Wake + Drop, R: Wait + Copy + Drop> Drop for LocalCancel<T, W, R> {
    fn drop(self) {
        let LocalCancel { held, is_cancelled } = self;
        if is_cancelled {
            held.leave(&mut Unlocked::at_entry());
        } else {
            held.cancel_and_leave(&mut Unlocked::at_entry());
        }
    }
}

impl<T: Drop, W: Wake + Drop, R: Wait + Copy + Drop> fmt::Debug for LocalHandle<T, W, R> {
    fn fmt<O: fmt::Write>(&self, f: &mut fmt::Formatter<O>) -> fmt::Result {
        let is_finished = self.held.is_finished_at_a_glance(&mut Unlocked::at_entry());
        show_handle("LocalHandle", is_finished, f)
    }
}

impl<T: Drop, W: Wake + Drop, R: Wait + Copy + Drop> fmt::Debug for LocalFallible<T, W, R> {
    fn fmt<O: fmt::Write>(&self, f: &mut fmt::Formatter<O>) -> fmt::Result {
        let is_finished = self.held.is_finished_at_a_glance(&mut Unlocked::at_entry());
        show_handle("LocalFallible", is_finished, f)
    }
}
