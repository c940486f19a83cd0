ghost use Rattle.std.specs.Prelude.{◌≡◌, ◌||◌, false, true};
ghost use Rattle.async_task.specs.Polls.{FoundAt, found_if_any, gives};
ghost use Rattle.task_word.specs.Tokens.{IsThere};

use crate::bounds::{Output, OutsideWaker};
use crate::cell::{Duty, Held, Place, Scheduled};
use crate::errors::NoMemory;
use crate::fallible::found;
use crate::poll::{Future, Poll};
use crate::polling::poll;
use crate::schedule::Schedule;
use crate::waker::Awaiter;
use std::marker::Model;
use std::sync::Wait;

/// The end of a task that its handle closes. The first poll cancels it. It is ready once the future
/// is dropped, with the output where that was there before. Its drop cancels the task too.
///
/// In the Rust crate `async-task` `Task::cancel` is an `async fn`, whose future has no name. This future has an output of type
/// `Result<Option<T>, NoMemory>`: None where the task had no output to give. Where no copy of its waker can be had a poll is ready
/// with `NoMemory`; it has cancelled then, and can be polled again. The cancel itself takes no memory. The task's cell is kept
/// until this is dropped, also after its answer. Its types are those of a `Task`.
///
/// In `cancelled` of `examples`, over any `R: Runtime`, the run of the queue drops the future unpolled:
///
/// ```
/// let queue = ReadyQueue::new(rt, realm, places);
/// let Ok(task) = queue.spawn(Sum { left: 4, sum: 0 }) else {
///     return false;
/// };
/// let nobody = Awaiter::Outside(Nobody);
/// let mut cancel = task.cancel();
/// let is_waiting = matches!(cancel.poll(&nobody), Poll::Pending);
/// queue.run();
/// is_waiting & matches!(cancel.poll(&nobody), Poll::Ready(Ok(None)))
/// ```
#[must_use]
pub struct Cancel<F, T: Output, S, M, W: OutsideWaker, R>
where
    F: Drop + 'static,
    S: Schedule<Scheduled<F, T, S, M, W, R>> + Drop + 'static,
    M: Copy + Drop + 'static,
    R: Wait + Copy + Drop,
{
    held: Held<F, T, S, M, W, R>,
    handle: Place<F, T, W>,
    /// The duty to cancel the task, until it is cancelled.
    duty: Option<Duty>,
    ghost there: { IsThere handle.cell.now.board.shared handle.claim },
}

impl<F, T: Output, S, M, W: OutsideWaker, R> Model for Cancel<F, T, S, M, W, R>
where
    F: Drop + 'static,
    S: Schedule<Scheduled<F, T, S, M, W, R>> + Drop + 'static,
    M: Copy + Drop + 'static,
    R: Wait + Copy + Drop,
{
    ghost use Rattle.std.specs.Prelude.{is_none};
    ghost use Rattle.async_task.specs.Handles.{Cancelling};

    ghost Value = { Cancelling F T M W };

    ghost view = { λ c. record {
      task = c.held;
      is_cancelled = is_none c.duty;
      cell = c.handle.cell.now;
      claim = c.handle.claim;
      given = c.handle.given;
    } };
}

impl<F, T: Output, S, M, W: OutsideWaker, R> Cancel<F, T, S, M, W, R>
where
    F: Drop + 'static,
    S: Schedule<Scheduled<F, T, S, M, W, R>> + Drop + 'static,
    M: Copy + Drop + 'static,
    R: Wait + Copy + Drop,
{
    /// The future that closes the task of this handle.
    pub(crate) fn of(held: Held<F, T, S, M, W, R>, handle: Place<F, T, W>, duty: Duty) -> Self
        requires { IsThere handle.cell.now.board.shared handle.claim }
        ensures task { result.task ≡ held }
        ensures open { result.is_cancelled ≡ false }
        ensures given { result.given ≡ handle.entry.given }
    {
        Cancel {
            held,
            handle,
            duty: Some(duty),
        }
    }
}

impl<F, T: Output, S, M, W: OutsideWaker, R> Future<Awaiter<F, T, S, M, W, R>>
    for Cancel<F, T, S, M, W, R>
where
    F: Drop + 'static,
    S: Schedule<Scheduled<F, T, S, M, W, R>> + Drop + 'static,
    M: Copy + Drop + 'static,
    R: Wait + Copy + Drop,
{
    type Output = Result<Option<T>, NoMemory>;

    fn poll(&mut self, waker: &Awaiter<F, T, S, M, W, R>) -> Poll<Result<Option<T>, NoMemory>>
        ensures task { self.new.task ≡ self.old.task }
        ensures cancelled { self.new.is_cancelled ≡ true }
        ensures same { self.new.cell ≡ self.old.cell }
        ensures found { FoundAt self.old.cell.board.shared self.new.claim (found_if_any result) }
        ensures given { self.new.given ≡ (gives (found_if_any result) || self.old.given) }
    {
        if let Some(duty) = self.duty.take() {
            let token = self.held.cancel(self.handle.take(), duty);
            self.handle.put(token);
        }
        found(poll(&self.held, &mut self.handle, waker))
    }
}

impl<F, T: Output, S, M, W: OutsideWaker, R> Drop for Cancel<F, T, S, M, W, R>
where
    F: Drop + 'static,
    S: Schedule<Scheduled<F, T, S, M, W, R>> + Drop + 'static,
    M: Copy + Drop + 'static,
    R: Wait + Copy + Drop,
{
    fn drop(self) {
        let Self { held, handle, duty } = self;
        match duty {
            Some(duty) => held.cancel_and_leave(handle.open(), duty),
            None => held.leave_cell(handle.open()),
        }
    }
}
