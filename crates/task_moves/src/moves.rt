//! The moves of a task, as pure functions of its state: an arm for each thing that a mover may
//! find. Each is one change of the state, and says what the mover then owes. None of them calls anything.
ghost use Rattle.std.specs.Prelude.{◌≡◌, ◌^◌, ◌<◌};
ghost use Rattle.task_moves.specs.Moves as moves;
ghost use Rattle.task_moves.specs.Moves.{HoldsReference};

mod awaiter;
mod debts;
mod handle;
mod owed;
mod runs;
mod state;
mod wakers;

pub use awaiter::{end_notify, end_register, notify, register};
pub use handle::{cancel, detach, look_again, poll};
pub use owed::{Answer, AwaiterDebt, FutureDebt, Move, Moved, Owed};
pub use runs::{
    drop_runnable, end_closed, end_pending, end_ready, give_up, settle_closed, take_up,
};
pub use state::State;
pub use wakers::{MOST_REFERENCES, copy, make, release, wake, wake_by_reference};

/// The move of each kind.
pub fn after(kind: Move, state: State) -> Moved
    requires few { state.references < 2 ^ 63 }
    requires held { HoldsReference kind state }
    ensures { result ≡ moves.after kind state }
{
    match kind {
        Move::WakeByReference => wake_by_reference(state),
        Move::Wake => wake(state),
        Move::Copy => copy(state),
        Move::Release => release(state),
        Move::TakeUp => take_up(state),
        Move::SettleClosed => settle_closed(state),
        Move::GiveUp => give_up(state),
        Move::EndReady => end_ready(state),
        Move::EndPending => end_pending(state),
        Move::EndClosed => end_closed(state),
        Move::DropRunnable => drop_runnable(state),
        Move::Cancel => cancel(state),
        Move::Detach => detach(state),
        Move::Poll => poll(state),
        Move::LookAgain => look_again(state),
        Move::Register => register(state),
        Move::EndRegister => end_register(state),
        Move::Notify => notify(state),
        Move::EndNotify => end_notify(state),
    }
}
