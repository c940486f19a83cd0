//! How a waker's reference rests in the word of stored wakers, as its cell's number stands in a list.
ghost use Rattle.std.specs.Prelude.{◌≡◌, MatchBool};
ghost use Rattle.task_word.specs.Steps.{FoundNone, Has, IsSeatOf, IsSameSeat};
ghost use Rattle.task_word.specs.declared.rule.Hold.TheVariants.{Nothing, Reference};

use crate::rule;
use crate::steps::{Board, Pass};
use std::sync::Wait;

/// The reference rests in the cell. It is one add.
#[inline(always)]
pub fn store<F, T, W>(board: &Board<F, T, W>, pass: &mut Pass<F, T, W>)
    requires seat { IsSeatOf board.now pass.old }
    requires has { Has Reference pass.old }
    ensures same { IsSameSeat pass.old pass.new }
    ensures nothing { Has Nothing pass.new }
{
    board.fetch_add::<rule::Store>(pass, 1, 1);
}

/// Takes a reference that rests in the cell. The answer is false where none does.
#[inline(always)]
pub fn redeem<F, T, W, R: Wait>(rt: &R, board: &Board<F, T, W>, pass: &mut Pass<F, T, W>) -> bool
    requires seat { IsSeatOf board.now pass.old }
    requires has { Has Nothing pass.old }
    ensures same { IsSameSeat pass.old pass.new }
    ensures right { MatchBool result (Has Reference pass.new) (FoundNone pass.new) }
{
    for _ in rt.forever() {
        let old = board.load::<rule::LookStored>(pass, 1);
        if old == 0 {
            return false;
        }
        let new = old - 1;
        if board.compare_exchange::<rule::Redeem>(pass, 1, old, new) == old {
            return true;
        }
    }
    unreachable!()
}
