//! The moves of the handle.
ghost use Rattle.std.specs.Prelude.{◌≡◌, ◌^◌, ◌<◌, true};
ghost use Rattle.task_moves.specs.Moves as moves;

use crate::moves::debts::{NOTHING, QUEUED, notify_if, notify_other_if};
use crate::moves::owed::{Answer, AwaiterDebt, Move, Moved, Owed};
use crate::moves::state::State;

// The task is closed.
#[inline(always)]
fn close(state: State) -> State
    ensures { result ≡ record state { closed = true } }
{
    State {
        closed: true,
        ..state
    }
}

/// The handle cancels the task.
#[inline(always)]
pub fn cancel(state: State) -> Moved
    requires { state.references < 2 ^ 63 }
    ensures { result ≡ moves.cancel state }
{
    match state {
        // It is over.
        _ if state.completed || state.closed => Moved {
            state,
            owed: NOTHING,
        },
        // A Runnable or a run is there, which will drop the future.
        _ if state.scheduled || state.running => Moved {
            state: close(state),
            owed: Owed {
                awaiter: notify_if(state.awaiter),
                ..NOTHING
            },
        },
        // It is idle: a Runnable is owed, which will drop the future.
        _ => Moved {
            state: State {
                scheduled: true,
                closed: true,
                references: state.references + 1,
                ..state
            },
            owed: Owed {
                schedule: QUEUED,
                awaiter: notify_if(state.awaiter),
                ..NOTHING
            },
        },
    }
}

/// The handle goes.
#[inline(always)]
pub fn detach(state: State) -> Moved
    ensures { result ≡ moves.detach state }
{
    match state {
        // Its output is there: that goes first.
        _ if state.completed && !state.closed => Moved {
            state: close(state),
            owed: Owed {
                drop_output: true,
                next: Some(Move::Detach),
                ..NOTHING
            },
        },
        // It is open and idle, and nobody is left who could wake it.
        _ if state.references == 0 && !state.closed => Moved {
            state: State {
                handle: false,
                scheduled: true,
                closed: true,
                references: 1,
                ..state
            },
            owed: Owed {
                schedule: QUEUED,
                ..NOTHING
            },
        },
        // It is over, or somebody is left.
        _ => Moved {
            state: State {
                handle: false,
                ..state
            },
            owed: Owed {
                empty_cell: state.references == 0,
                ..NOTHING
            },
        },
    }
}

/// A poll of the handle looks at the task.
#[inline(always)]
pub fn poll(state: State) -> Moved
    ensures { result ≡ moves.poll state }
{
    match state {
        // It is closed, and its future isn't dropped yet.
        _ if state.closed && (state.scheduled || state.running) => Moved {
            state,
            owed: Owed {
                next: Some(Move::Register),
                ..NOTHING
            },
        },
        // It is closed.
        _ if state.closed => Moved {
            state,
            owed: Owed {
                awaiter: Some(AwaiterDebt::NotifyOther),
                answer: Some(Answer::Closed),
                ..NOTHING
            },
        },
        // Its output isn't there yet.
        _ if !state.completed => Moved {
            state,
            owed: Owed {
                next: Some(Move::Register),
                ..NOTHING
            },
        },
        // Its output is there.
        _ => Moved {
            state: close(state),
            owed: Owed {
                awaiter: notify_other_if(state.awaiter),
                answer: Some(Answer::Output),
                ..NOTHING
            },
        },
    }
}

/// A poll of the handle looks again, after it has registered its waker.
#[inline(always)]
pub fn look_again(state: State) -> Moved
    ensures { result ≡ moves.look_again state }
{
    let look = poll(state);
    match look.owed.next {
        // The waker is registered.
        Some(_) => Moved {
            state,
            owed: Owed {
                answer: Some(Answer::Pending),
                ..NOTHING
            },
        },
        // As at the first look.
        None => look,
    }
}
