//! The moves of who stores the awaiter, and of who takes it out.
ghost use Rattle.std.specs.Prelude.{◌≡◌};
ghost use Rattle.task_moves.specs.Moves as moves;

use crate::moves::debts::NOTHING;
use crate::moves::owed::{AwaiterDebt, Move, Moved, Owed};
use crate::moves::state::State;

/// A poll of the handle begins to register its waker.
#[inline(always)]
pub fn register(state: State) -> Moved
    ensures { result ≡ moves.register state }
{
    match state {
        // Somebody is notifying.
        _ if state.notifying => Moved {
            state,
            owed: Owed {
                awaiter: Some(AwaiterDebt::CallGiven),
                next: Some(Move::LookAgain),
                ..NOTHING
            },
        },
        // Nobody is.
        _ => Moved {
            state: State {
                registering: true,
                ..state
            },
            owed: Owed {
                awaiter: Some(AwaiterDebt::StoreCopy),
                next: Some(Move::EndRegister),
                ..NOTHING
            },
        },
    }
}

/// The waker is stored.
#[inline(always)]
pub fn end_register(state: State) -> Moved
    ensures { result ≡ moves.end_register state }
{
    match state {
        // Somebody wanted to notify meanwhile.
        _ if state.notifying => Moved {
            state: State {
                awaiter: false,
                registering: false,
                notifying: false,
                ..state
            },
            owed: Owed {
                awaiter: Some(AwaiterDebt::CallStored),
                next: Some(Move::LookAgain),
                ..NOTHING
            },
        },
        // Nobody did.
        _ => Moved {
            state: State {
                awaiter: true,
                registering: false,
                ..state
            },
            owed: Owed {
                next: Some(Move::LookAgain),
                ..NOTHING
            },
        },
    }
}

/// Somebody wants the awaiter called.
#[inline(always)]
pub fn notify(state: State) -> Moved
    ensures { result ≡ moves.notify state }
{
    match state {
        // Somebody else is at the awaiter, and will call it.
        _ if state.notifying || state.registering => Moved {
            state: State {
                notifying: true,
                ..state
            },
            owed: NOTHING,
        },
        // Nobody is.
        _ => Moved {
            state: State {
                notifying: true,
                ..state
            },
            owed: Owed {
                awaiter: Some(AwaiterDebt::TakeAwaiter),
                next: Some(Move::EndNotify),
                ..NOTHING
            },
        },
    }
}

/// The awaiter is taken out.
#[inline(always)]
pub fn end_notify(state: State) -> Moved
    ensures { result ≡ moves.end_notify state }
{
    Moved {
        state: State {
            awaiter: false,
            notifying: false,
            ..state
        },
        owed: Owed {
            awaiter: Some(AwaiterDebt::CallTaken),
            ..NOTHING
        },
    }
}
