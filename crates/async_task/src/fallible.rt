ghost use Rattle.std.specs.Prelude.{◌≡◌, ◌||◌, false};
ghost use Rattle.async_task.specs.Handles.{task_of};
ghost use Rattle.async_task.specs.Polls.{FoundAt, found_if_any, gives};
ghost use Rattle.task_word.specs.Tokens.{IsThere};

use crate::bounds::{Output, OutsideWaker};
use crate::cancel::Cancel;
use crate::cell::{Detached, Duty, Held, Place, Scheduled};
use crate::errors::NoMemory;
use crate::look::Look;
use crate::poll::{Future, Poll};
use crate::polling::{Found, poll};
use crate::schedule::Schedule;
use crate::waker::Awaiter;
use std::marker::Model;
use std::sync::Wait;

/// The handle of a task whose closing is no error. Its drop cancels the task.
#[must_use]
pub struct FallibleTask<F, T: Output, S, M, W: OutsideWaker, R>
where
    F: Drop + 'static,
    S: Schedule<Scheduled<F, T, S, M, W, R>> + Drop + 'static,
    M: Copy + Drop + 'static,
    R: Wait + Copy + Drop,
{
    pub(crate) held: Held<F, T, S, M, W, R>,
    pub(crate) handle: Place<F, T, W>,
    pub(crate) duty: Duty,
    ghost there: { IsThere handle.cell.now.board.shared handle.claim },
}

impl<F, T: Output, S, M, W: OutsideWaker, R> Model for FallibleTask<F, T, S, M, W, R>
where
    F: Drop + 'static,
    S: Schedule<Scheduled<F, T, S, M, W, R>> + Drop + 'static,
    M: Copy + Drop + 'static,
    R: Wait + Copy + Drop,
{
    ghost use Rattle.async_task.specs.Handles.{Polling};

    ghost Value = { Polling F T M W };

    ghost view = { λ h. record {
      identity = h.held.identity;
      metadata = h.held.metadata;
      cell = h.handle.cell.now;
      claim = h.handle.claim;
      given = h.handle.given;
    } };
}

impl<F, T: Output, S, M, W: OutsideWaker, R> FallibleTask<F, T, S, M, W, R>
where
    F: Drop + 'static,
    S: Schedule<Scheduled<F, T, S, M, W, R>> + Drop + 'static,
    M: Copy + Drop + 'static,
    R: Wait + Copy + Drop,
{
    /// The metadata that the task was made with.
    pub fn metadata(&self) -> &M
        ensures { result.now ≡ self.now.metadata }
    {
        self.held.metadata()
    }

    /// How the task stands at this moment. It takes one load.
    pub fn look(&self) -> Look {
        self.held.look()
    }

    /// Whether the future has given its output and is dropped, or is going to be dropped: what a look says.
    pub fn is_finished(&self) -> bool {
        self.look().is_finished()
    }

    /// Gives the handle up. The task goes on, and its output is dropped. The answer shows that this handle didn't cancel the task,
    /// and may be dropped.
    pub fn detach(self) -> Detached {
        let Self { held, handle, duty } = self;
        held.detach(handle.open(), duty)
    }

    /// Makes a future that closes the task when it is first polled, and then has the output where there was one.
    pub fn cancel(self) -> Cancel<F, T, S, M, W, R>
        ensures task { result.task ≡ task_of self }
        ensures open { result.is_cancelled ≡ false }
        ensures given { result.given ≡ self.given }
    {
        let Self { held, handle, duty } = self;
        Cancel::of(held, handle, duty)
    }
}

impl<F, T: Output, S, M, W: OutsideWaker, R> Future<Awaiter<F, T, S, M, W, R>>
    for FallibleTask<F, T, S, M, W, R>
where
    F: Drop + 'static,
    S: Schedule<Scheduled<F, T, S, M, W, R>> + Drop + 'static,
    M: Copy + Drop + 'static,
    R: Wait + Copy + Drop,
{
    type Output = Result<Option<T>, NoMemory>;

    fn poll(&mut self, waker: &Awaiter<F, T, S, M, W, R>) -> Poll<Result<Option<T>, NoMemory>>
        ensures task { task_of self.new ≡ task_of self.old }
        ensures same { self.new.cell ≡ self.old.cell }
        ensures found { FoundAt self.old.cell.board.shared self.new.claim (found_if_any result) }
        ensures given { self.new.given ≡ (gives (found_if_any result) || self.old.given) }
    {
        found(poll(&self.held, &mut self.handle, waker))
    }
}

/// Converts an answer: None where there is no output.
pub fn found<T>(found: Found<T>) -> Poll<Result<Option<T>, NoMemory>>
    ensures { found_if_any result ≡ found }
{
    match found {
        Found::Output(output) => Poll::Ready(Ok(Some(output))),
        Found::Closed => Poll::Ready(Ok(None)),
        Found::Pending => Poll::Pending,
        Found::NoMemory => Poll::Ready(Err(NoMemory)),
    }
}

impl<F, T: Output, S, M, W: OutsideWaker, R> Drop for FallibleTask<F, T, S, M, W, R>
where
    F: Drop + 'static,
    S: Schedule<Scheduled<F, T, S, M, W, R>> + Drop + 'static,
    M: Copy + Drop + 'static,
    R: Wait + Copy + Drop,
{
    fn drop(self) {
        let Self { held, handle, duty } = self;
        held.cancel_and_leave(handle.open(), duty);
    }
}
