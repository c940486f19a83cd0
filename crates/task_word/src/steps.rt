//! The moves on a task's word, each lent the board and a seat. Each change of the state is one of `task_moves`.
ghost use Rattle.std.specs.Prelude.{◌≡◌};
ghost use Rattle.task_word.specs.Awaiter as awaiter_specs;
ghost use Rattle.task_word.specs.Steps as steps;
ghost use Rattle.task_word.specs.Steps.{looked, IsSeatOf, IsSameSeat};

pub mod awaiter;
pub mod closing;
pub mod handle;
pub mod making;
pub mod parked;
pub mod runs;
pub mod stored;
pub mod wakers;

use crate::rule;
use crate::rule::{CellRule, Slot, View};
use atomic_table::{Seat, Shared};
use task_moves::moves::{AwaiterDebt, Moved, Owed};

/// The words and the slots of a cell, as its seats see them: future, output and waker.
pub type Board<F, T, W> = Shared<Slot<F, T, W>, View, (), CellRule>;

/// What a thread has of a cell's task.
pub type Pass<F, T, W> = Seat<Slot<F, T, W>, View>;

#[inline(always)]
pub(crate) fn look<F, T, W>(board: &Board<F, T, W>, pass: &mut Pass<F, T, W>) -> u64
    requires { IsSeatOf board.now pass.old }
    ensures same { IsSameSeat pass.old pass.new }
    ensures saw { looked pass.old.me result pass.new.me }
{
    board.load::<rule::Look>(pass, 0)
}

/// An awaiter is left in a cell that is emptied.
#[inline(always)]
fn leaves_awaiter(moved: Moved) -> bool
    ensures { result ≡ steps.leaves_awaiter moved }
{
    moved.owed.empty_cell && moved.state.awaiter
}

/// The mover has something to do at the awaiter's slot.
#[inline(always)]
pub(crate) fn needs_slot(owed: Owed) -> bool
    ensures { result ≡ awaiter_specs.needs_slot owed.awaiter }
{
    matches!(
        owed.awaiter,
        Some(AwaiterDebt::StoreCopy | AwaiterDebt::TakeAwaiter)
    )
}
