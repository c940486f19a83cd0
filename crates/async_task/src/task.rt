//! The handle of a task.
ghost use Rattle.std.specs.Prelude.{◌≡◌, ◌||◌, false};
ghost use Rattle.async_task.specs.Handles.{task_of};
ghost use Rattle.async_task.specs.Polls.{FoundAt, found_in, gives};
ghost use Rattle.task_word.specs.Tokens.{IsThere};

use crate::bounds::{Output, OutsideWaker};
use crate::cancel::Cancel;
use crate::cell::{Detached, Duty, Held, Place, Scheduled, TaskToken, park};
use crate::fallible::FallibleTask;
use crate::look::Look;
use crate::poll::{Future, Poll};
use crate::polling::{Found, poll};
use crate::schedule::Schedule;
use crate::stored_task::StoredTask;
use crate::waker::Awaiter;
use std::marker::Model;
use std::sync::Wait;

/// Why a task has no output to give.
#[derive(Clone, Copy, Debug, PartialEq, Eq, Drop)]
pub enum TaskError {
    /// It is cancelled, or its output was given before.
    TaskClosed,
    /// No copy of the waker could be had: the task is as it was, and can be polled again.
    NoMemory,
}

/// The handle of a task, which is polled for the output. Its drop cancels the task. It is `Task` of the Rust crate `async-task`.
///
/// It is a future with `Result<T, TaskError>`. A poll without an answer keeps a copy of its waker, in place of the one before; a
/// waker of another realm's task is called at once instead. Where no copy can be had the poll is ready with `NoMemory`, and can be
/// made again. A task that was cancelled, or whose output was given, answers `TaskClosed`. A poll that has an answer takes no
/// memory, nor does a cancel.
///
/// Its calls take no runtime value: it keeps the one, `R`, of its spawn. `F` is what lies in the task's cell, `S` its schedule
/// value, `M` its metadata, `W` the type of wakers from outside. `ExTask` and `QueueTask` name the handles of an executor and of a
/// queue. `store` makes it what a list or another future can keep.
///
/// In `first_task` of `examples`, over any `R: Runtime`, the future adds the numbers from 4 down to 1:
///
/// ```
/// let queue = ReadyQueue::new(rt, realm, places);
/// let Ok(mut task) = queue.spawn(Sum { left: 4, sum: 0 }) else {
///     return None;
/// };
/// queue.run();
/// match task.poll(&Awaiter::Outside(Nobody)) {
///     Poll::Ready(Ok(sum)) => Some(sum),
///     _ => None,
/// }
/// ```
#[must_use]
pub struct Task<F, T: Output, S, M, W: OutsideWaker, R>
where
    F: Drop + 'static,
    S: Schedule<Scheduled<F, T, S, M, W, R>> + Drop + 'static,
    M: Copy + Drop + 'static,
    R: Wait + Copy + Drop,
{
    pub(crate) held: Held<F, T, S, M, W, R>,
    pub(crate) handle: Place<F, T, W>,
    pub(crate) duty: Duty,
    ghost there: { IsThere handle.cell.now.board.shared handle.claim },
}

impl<F, T: Output, S, M, W: OutsideWaker, R> Model for Task<F, T, S, M, W, R>
where
    F: Drop + 'static,
    S: Schedule<Scheduled<F, T, S, M, W, R>> + Drop + 'static,
    M: Copy + Drop + 'static,
    R: Wait + Copy + Drop,
{
    ghost use Rattle.async_task.specs.Handles.{Polling};

    ghost Value = { Polling F T M W };

    ghost view = { λ h. record {
      identity = h.held.identity;
      metadata = h.held.metadata;
      cell = h.handle.cell.now;
      claim = h.handle.claim;
      given = h.handle.given;
    } };
}

impl<F, T: Output, S, M, W: OutsideWaker, R> Task<F, T, S, M, W, R>
where
    F: Drop + 'static,
    S: Schedule<Scheduled<F, T, S, M, W, R>> + Drop + 'static,
    M: Copy + Drop + 'static,
    R: Wait + Copy + Drop,
{
    pub(crate) fn of(held: Held<F, T, S, M, W, R>, token: TaskToken<F, T, W>, duty: Duty) -> Self
        ensures task { task_of result ≡ held }
        ensures given { result.given ≡ false }
    {
        let handle = Place::of(token);
        Task { held, handle, duty }
    }

    /// The handle for a list, which takes no memory.
    pub fn store(self) -> StoredTask<M>
        ensures task { result.identity ≡ self.identity }
        ensures metadata { result.metadata ≡ self.metadata }
    {
        let Self { held, handle, duty } = self;
        held.stored_task(park(handle.open(), duty))
    }

    /// The metadata that the task was made with.
    pub fn metadata(&self) -> &M
        ensures { result.now ≡ self.now.metadata }
    {
        self.held.metadata()
    }

    /// How the task stands at this moment. It takes one load.
    pub fn look(&self) -> Look {
        self.held.look()
    }

    /// Whether the future has given its output and is dropped, or is going to be dropped: what a look says.
    pub fn is_finished(&self) -> bool {
        self.look().is_finished()
    }

    /// Gives the handle up. The task goes on, and its output is dropped. The answer shows that this handle didn't cancel the task,
    /// and may be dropped.
    pub fn detach(self) -> Detached {
        let Self { held, handle, duty } = self;
        held.detach(handle.open(), duty)
    }

    /// Makes a future that closes the task when it is first polled, and then has the output where there was one.
    pub fn cancel(self) -> Cancel<F, T, S, M, W, R>
        ensures task { result.task ≡ task_of self }
        ensures open { result.is_cancelled ≡ false }
        ensures given { result.given ≡ self.given }
    {
        let Self { held, handle, duty } = self;
        Cancel::of(held, handle, duty)
    }

    /// Makes the same handle, which has None for an output where the task is closed.
    pub fn fallible(self) -> FallibleTask<F, T, S, M, W, R>
        ensures { result ≡ self }
    {
        let Self { held, handle, duty } = self;
        FallibleTask { held, handle, duty }
    }
}

impl<F, T: Output, S, M, W: OutsideWaker, R> Future<Awaiter<F, T, S, M, W, R>>
    for Task<F, T, S, M, W, R>
where
    F: Drop + 'static,
    S: Schedule<Scheduled<F, T, S, M, W, R>> + Drop + 'static,
    M: Copy + Drop + 'static,
    R: Wait + Copy + Drop,
{
    type Output = Result<T, TaskError>;

    fn poll(&mut self, waker: &Awaiter<F, T, S, M, W, R>) -> Poll<Result<T, TaskError>>
        ensures task { task_of self.new ≡ task_of self.old }
        ensures same { self.new.cell ≡ self.old.cell }
        ensures found { FoundAt self.old.cell.board.shared self.new.claim (found_in result) }
        ensures given { self.new.given ≡ (gives (found_in result) || self.old.given) }
    {
        answer(poll(&self.held, &mut self.handle, waker))
    }
}

/// Converts the answer of a handle for which closing is an error.
fn answer<T>(found: Found<T>) -> Poll<Result<T, TaskError>>
    ensures { found_in result ≡ found }
{
    match found {
        Found::Output(output) => Poll::Ready(Ok(output)),
        Found::Closed => Poll::Ready(Err(TaskError::TaskClosed)),
        Found::Pending => Poll::Pending,
        Found::NoMemory => Poll::Ready(Err(TaskError::NoMemory)),
    }
}

impl<F, T: Output, S, M, W: OutsideWaker, R> Drop for Task<F, T, S, M, W, R>
where
    F: Drop + 'static,
    S: Schedule<Scheduled<F, T, S, M, W, R>> + Drop + 'static,
    M: Copy + Drop + 'static,
    R: Wait + Copy + Drop,
{
    fn drop(self) {
        let Self { held, handle, duty } = self;
        held.cancel_and_leave(handle.open(), duty);
    }
}
