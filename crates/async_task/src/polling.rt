//! How a handle of any kind is polled.
ghost use Rattle.std.specs.Prelude.{◌≡◌, ◌||◌};
ghost use Rattle.async_task.specs.Polls.{found_by, FoundAt, gives, IsTold};
ghost use Rattle.task_word.specs.Handles.{IsHandleOf};
ghost use Rattle.task_word.specs.Tokens.{IsThere};

use crate::bounds::{Output, OutsideWaker};
use crate::cell::{Held, Kept, Place, Scheduled, Site, TaskToken, kept, paid, pay_due};
use crate::schedule::Schedule;
use crate::wake::Wake;
use crate::waker::Awaiter;
use std::sync::Wait;
use task_moves::moves::{Answer, Owed};
use task_word::tokens::{Given, Polled, Registered, WaitingTask};

/// What a poll of a handle finds.
pub enum Found<T> {
    /// The output, which is given.
    Output(T),
    /// There is none, nor will there be one.
    Closed,
    /// There is none yet.
    Pending,
    /// No copy of the waker could be had: nothing was done.
    NoMemory,
}

/// Polls the handle. Where there is an answer already it copies no waker, so that such a poll takes no memory; else it makes one
/// copy. A waker of a task of another realm can't be kept: it is called at once.
pub(crate) fn poll<F, T: Output, S, M, W: OutsideWaker, R>(
    held: &Held<F, T, S, M, W, R>,
    place: &mut Place<F, T, W>,
    waker: &Awaiter<F, T, S, M, W, R>,
) -> Found<T>
where
    F: Drop + 'static,
    S: Schedule<Scheduled<F, T, S, M, W, R>> + Drop + 'static,
    M: Copy + Drop + 'static,
    R: Wait + Copy + Drop,
    requires { IsThere place.old.cell.now.board.shared place.old.claim }
    ensures there { IsThere place.new.cell.now.board.shared place.new.claim }
    ensures same { place.new.cell.now ≡ place.old.cell.now }
    ensures found { FoundAt place.old.cell.now.board.shared place.new.claim result }
    ensures given { place.new.given ≡ (gives result || place.old.given) }
{
    let (token, found) = looked(held, place.take(), waker);
    place.put(token);
    match found {
        Found::Output(output) => Found::Output(place.give(output)),
        Found::Closed => Found::Closed,
        Found::Pending => Found::Pending,
        Found::NoMemory => Found::NoMemory,
    }
}

/// Looks, and waits where there is no answer.
#[inline(always)]
fn looked<F, T: Output, S, M, W: OutsideWaker, R>(
    held: &Held<F, T, S, M, W, R>,
    token: TaskToken<F, T, W>,
    waker: &Awaiter<F, T, S, M, W, R>,
) -> (TaskToken<F, T, W>, Found<Given<T>>)
where
    F: Drop + 'static,
    S: Schedule<Scheduled<F, T, S, M, W, R>> + Drop + 'static,
    M: Copy + Drop + 'static,
    R: Wait + Copy + Drop,
    ensures same { result.0.cell.now ≡ token.entry.cell.now }
    ensures found { FoundAt token.entry.cell.now.board.shared result.0.claim result.1 }
{
    let (owed, polled) = token.poll(&held.rt());
    match polled {
        Ok(polled) => answered(held, owed, polled),
        Err(waiting) => match to_keep(held, waker) {
            Some(kept) => registered(held, waiting, kept, waker),
            None => (waiting.refuse(), Found::NoMemory),
        },
    }
}

/// Registers the waker, and looks again.
#[inline(always)]
fn registered<F, T: Output, S, M, W: OutsideWaker, R>(
    held: &Held<F, T, S, M, W, R>,
    waiting: WaitingTask<F, T, Kept<W>>,
    kept: Kept<W>,
    waker: &Awaiter<F, T, S, M, W, R>,
) -> (TaskToken<F, T, W>, Found<Given<T>>)
where
    F: Drop + 'static,
    S: Schedule<Scheduled<F, T, S, M, W, R>> + Drop + 'static,
    M: Copy + Drop + 'static,
    R: Wait + Copy + Drop,
    ensures same { result.0.cell.now ≡ waiting.entry.task.cell.now }
    ensures found { FoundAt waiting.entry.task.cell.now.board.shared result.0.claim result.1 }
{
    let Registered {
        task,
        to_call,
        to_drop,
    } = waiting.register(&held.rt(), kept).1;
    pay_due(held.call_some(paid(to_call)));
    if let Some(before) = paid(to_drop) {
        pay_due(Site::let_go(held.rt(), held.realm(), before));
    }
    let (owed, polled) = task.look_again(&held.rt());
    let (token, found) = answered(held, owed, polled);
    if let Found::Pending = &found {
        if is_foreign(held, waker) {
            waker.wake_by_ref();
        }
    }
    (token, found)
}

/// What the poll has found. Calls the awaiter, where it has to be woken.
#[inline(always)]
fn answered<F, T: Output, S, M, W: OutsideWaker, R>(
    held: &Held<F, T, S, M, W, R>,
    owed: Owed,
    polled: Polled<F, T, Kept<W>>,
) -> (TaskToken<F, T, W>, Found<Given<T>>)
where
    F: Drop + 'static,
    S: Schedule<Scheduled<F, T, S, M, W, R>> + Drop + 'static,
    M: Copy + Drop + 'static,
    R: Wait + Copy + Drop,
    ensures found { result.1 ≡ found_by polled.output owed.answer }
    ensures same { IsHandleOf result.0.cell.now polled.task }
    ensures told { IsTold polled.task result.0.claim }
{
    let Polled { task, output } = polled;
    let token = held.call_awaiter(task);
    let found = match output {
        Some(output) => Found::Output(output),
        None => match owed.answer {
            Some(Answer::Pending) => Found::Pending,
            _ => Found::Closed,
        },
    };
    (token, found)
}

/// Copies the waker as the cell is to keep it. For a waker of a task that is the task's place, and one reference more of that
/// task.
#[inline(always)]
fn to_keep<F, T: Output, S, M, W: OutsideWaker, R>(
    held: &Held<F, T, S, M, W, R>,
    waker: &Awaiter<F, T, S, M, W, R>,
) -> Option<Kept<W>>
where
    F: Drop + 'static,
    S: Schedule<Scheduled<F, T, S, M, W, R>> + Drop + 'static,
    M: Copy + Drop + 'static,
    R: Wait + Copy + Drop,
{
    if is_foreign(held, waker) {
        return Some(Kept::Nothing);
    }
    if let Awaiter::Outside(waker) = waker {
        return waker.clone().map(Kept::Outside);
    }
    match waker.hold() {
        Some((place, token)) => Some(Kept::Task(kept(place, token))),
        None => None,
    }
}

/// Whether it is a waker of a task of another realm.
#[inline(always)]
fn is_foreign<F, T: Output, S, M, W: OutsideWaker, R>(
    held: &Held<F, T, S, M, W, R>,
    waker: &Awaiter<F, T, S, M, W, R>,
) -> bool
where
    F: Drop + 'static,
    S: Schedule<Scheduled<F, T, S, M, W, R>> + Drop + 'static,
    M: Copy + Drop + 'static,
    R: Wait + Copy + Drop,
{
    match waker.identity() {
        Some(identity) => identity.realm != held.identity().realm,
        None => false,
    }
}
