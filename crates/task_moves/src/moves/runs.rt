//! The moves of a run, and of a call that closes a task.
ghost use Rattle.std.specs.Prelude.{◌≡◌, ◌<◌, true, false};
ghost use Rattle.task_moves.specs.Moves as moves;

use crate::moves::debts::{NOTHING, QUEUED_AFTER_POLL, settled};
use crate::moves::owed::{FutureDebt, Move, Moved, Owed};
use crate::moves::state::State;

/// A Runnable becomes a run.
#[inline(always)]
pub fn take_up(state: State) -> Moved
    ensures { result ≡ moves.take_up state }
{
    match state {
        // It is closed.
        _ if state.closed => Moved {
            state,
            owed: Owed {
                future: Some(FutureDebt::DropFuture),
                next: Some(Move::SettleClosed),
                ..NOTHING
            },
        },
        // It is open.
        _ => Moved {
            state: State {
                scheduled: false,
                running: true,
                ..state
            },
            owed: Owed {
                future: Some(FutureDebt::PollFuture),
                ..NOTHING
            },
        },
    }
}

/// The future of a closed task was dropped before a poll.
#[inline(always)]
pub fn settle_closed(state: State) -> Moved
    ensures { result ≡ moves.settle_closed state }
{
    Moved {
        state: State {
            scheduled: false,
            ..state
        },
        owed: settled(state.awaiter),
    }
}

/// A run or a closing call gives its reference up.
#[inline(always)]
pub fn give_up(state: State) -> Moved
    requires { 0 < state.references }
    ensures { result ≡ moves.give_up state }
{
    match state {
        // Somebody else is left.
        _ if state.references != 1 || state.handle => Moved {
            state: State {
                references: state.references - 1,
                ..state
            },
            owed: NOTHING,
        },
        // It was the last.
        _ => Moved {
            state: State {
                references: 0,
                ..state
            },
            owed: Owed {
                empty_cell: true,
                ..NOTHING
            },
        },
    }
}

/// The poll gave an output, which is stored, and the future was dropped.
#[inline(always)]
pub fn end_ready(state: State) -> Moved
    ensures { result ≡ moves.end_ready state }
{
    let unwanted = state.closed || !state.handle;
    Moved {
        state: State {
            scheduled: false,
            running: false,
            completed: true,
            closed: unwanted,
            ..state
        },
        owed: Owed {
            drop_output: unwanted,
            ..settled(state.awaiter)
        },
    }
}

/// The poll gave no output.
#[inline(always)]
pub fn end_pending(state: State) -> Moved
    requires { 0 < state.references }
    ensures { result ≡ moves.end_pending state }
{
    match state {
        // It is closed: nothing changes before the future is dropped.
        _ if state.closed => Moved {
            state,
            owed: Owed {
                future: Some(FutureDebt::DropFuture),
                next: Some(Move::EndClosed),
                ..NOTHING
            },
        },
        // It is open.
        _ => end_open(state),
    }
}

/// The poll of an open task gave no output.
fn end_open(state: State) -> Moved
    requires { 0 < state.references }
    ensures { result ≡ moves.end_pending_by false state.scheduled (moves.is_last state) state }
{
    match state {
        // It was woken meanwhile: the run's reference passes to a Runnable.
        _ if state.scheduled => Moved {
            state: State {
                running: false,
                ..state
            },
            owed: Owed {
                schedule: QUEUED_AFTER_POLL,
                ..NOTHING
            },
        },
        // Nobody is left who could wake it or ask for it.
        _ if state.references == 1 && !state.handle => forget(state),
        // It rests.
        _ => Moved {
            state: State {
                running: false,
                references: state.references - 1,
                ..state
            },
            owed: NOTHING,
        },
    }
}

/// The poll of a task gave no output, and nobody can reach the task any more.
fn forget(state: State) -> Moved
    ensures { result ≡ moves.end_pending_by false false true state }
{
    Moved {
        state: State {
            running: false,
            closed: true,
            references: 0,
            ..state
        },
        owed: Owed {
            future: Some(FutureDebt::DropFuture),
            empty_cell: true,
            ..NOTHING
        },
    }
}

/// The poll gave no output, the task was closed meanwhile, and the future was dropped.
#[inline(always)]
pub fn end_closed(state: State) -> Moved
    ensures { result ≡ moves.end_closed state }
{
    settle_closed(State {
        running: false,
        ..state
    })
}

/// A Runnable is let go.
#[inline(always)]
pub fn drop_runnable(state: State) -> Moved
    ensures { result ≡ moves.drop_runnable state }
{
    Moved {
        state: State {
            closed: state.closed || !state.completed,
            ..state
        },
        owed: Owed {
            future: Some(FutureDebt::DropFuture),
            next: Some(Move::SettleClosed),
            ..NOTHING
        },
    }
}
