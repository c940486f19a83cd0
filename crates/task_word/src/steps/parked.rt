//! How the handle rests in a word of its own, as its cell's number stands in a list.
ghost use Rattle.std.specs.Prelude.{◌≡◌, MatchBool};
ghost use Rattle.task_word.specs.Steps.{FoundNotParked, Has, IsSeatOf, IsSameSeat};
ghost use Rattle.task_word.specs.declared.rule.Hold.TheVariants.{Nothing, Handle};

use crate::rule;
use crate::steps::{Board, Pass};
use std::sync::Wait;

/// The handle rests in the cell. It is one add.
#[inline(always)]
pub fn park<F, T, W>(board: &Board<F, T, W>, pass: &mut Pass<F, T, W>)
    requires seat { IsSeatOf board.now pass.old }
    requires has { Has Handle pass.old }
    ensures same { IsSameSeat pass.old pass.new }
    ensures nothing { Has Nothing pass.new }
{
    board.fetch_add::<rule::Park>(pass, 2, 1);
}

/// Takes the handle that rests in the cell. The answer is false where it doesn't.
#[inline(always)]
pub fn unpark<F, T, W, R: Wait>(rt: &R, board: &Board<F, T, W>, pass: &mut Pass<F, T, W>) -> bool
    requires seat { IsSeatOf board.now pass.old }
    requires has { Has Nothing pass.old }
    ensures same { IsSameSeat pass.old pass.new }
    ensures right { MatchBool result (Has Handle pass.new) (FoundNotParked pass.new) }
{
    for _ in rt.forever() {
        let old = board.load::<rule::LookParked>(pass, 2);
        if old == 0 {
            return false;
        }
        let new = old - 1;
        if board.compare_exchange::<rule::Unpark>(pass, 2, old, new) == old {
            return true;
        }
    }
    unreachable!()
}
