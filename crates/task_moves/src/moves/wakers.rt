//! The moves of who makes a task, and of its wakers.
ghost use Rattle.std.specs.Prelude.{◌≡◌, ◌^◌, ◌<◌};
ghost use Rattle.task_moves.specs.Moves as moves;

use crate::moves::debts::{NOTHING, QUEUED};
use crate::moves::owed::{Answer, Move, Moved, Owed};
use crate::moves::state::State;

/// From so many references on, no copy of a waker is made.
pub const MOST_REFERENCES: u64 = 1 << 40;

/// A new task: its Runnable and its handle are there.
#[inline(always)]
pub fn make() -> State
    ensures { result ≡ moves.made }
{
    State {
        scheduled: true,
        running: false,
        completed: false,
        closed: false,
        handle: true,
        awaiter: false,
        registering: false,
        notifying: false,
        references: 1,
    }
}

/// A waker is called, and stays.
#[inline(always)]
pub fn wake_by_reference(state: State) -> Moved
    requires { state.references < 2 ^ 63 }
    ensures { result ≡ moves.wake_by_reference state }
{
    match state {
        // It is over or scheduled.
        _ if state.completed || state.closed || state.scheduled => Moved {
            state,
            owed: NOTHING,
        },
        // It is running: its run will schedule it.
        _ if state.running => Moved {
            state: State {
                scheduled: true,
                ..state
            },
            owed: NOTHING,
        },
        // It is idle.
        _ => Moved {
            state: State {
                scheduled: true,
                references: state.references + 1,
                ..state
            },
            owed: Owed {
                schedule: QUEUED,
                ..NOTHING
            },
        },
    }
}

/// A waker is called, and is then released.
#[inline(always)]
pub fn wake(state: State) -> Moved
    requires { state.references < 2 ^ 63 }
    ensures { result ≡ moves.wake state }
{
    let woken = wake_by_reference(state);
    Moved {
        state: woken.state,
        owed: Owed {
            next: Some(Move::Release),
            ..woken.owed
        },
    }
}

/// One more waker is asked for.
#[inline(always)]
pub fn copy(state: State) -> Moved
    ensures { result ≡ moves.copy state }
{
    match state {
        // There are too many.
        _ if state.references >= MOST_REFERENCES => Moved {
            state,
            owed: Owed {
                answer: Some(Answer::Refused),
                ..NOTHING
            },
        },
        // There is room for it.
        _ => Moved {
            state: State {
                references: state.references + 1,
                ..state
            },
            owed: NOTHING,
        },
    }
}

/// A waker goes.
#[inline(always)]
pub fn release(state: State) -> Moved
    requires { 0 < state.references }
    ensures { result ≡ moves.release state }
{
    match state {
        // Somebody else is left.
        _ if state.references != 1 || state.handle => Moved {
            state: State {
                references: state.references - 1,
                ..state
            },
            owed: NOTHING,
        },
        // It was the last of a task that is over.
        _ if state.completed || state.closed => Moved {
            state: State {
                references: 0,
                ..state
            },
            owed: Owed {
                empty_cell: true,
                ..NOTHING
            },
        },
        // It was the last of an open task, whose future has still to be dropped.
        _ => Moved {
            state: State {
                scheduled: true,
                closed: true,
                references: 1,
                ..state
            },
            owed: Owed {
                schedule: QUEUED,
                ..NOTHING
            },
        },
    }
}
