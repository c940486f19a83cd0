//! The moves by which a task is closed: a cancel, and the drop of a Runnable.
ghost use Rattle.task_moves.specs.Moves as moves;
ghost use Rattle.task_word.specs.Steps.{Makes, Has, HasFuture, HasQueued, IsSeatOf, IsSameSeat};
ghost use Rattle.task_word.specs.declared.rule.Hold.TheVariants.{Nothing, Queued, Closing};

use crate::layout::{decode, encode};
use crate::rule;
use crate::steps::{Board, Pass, look};
use std::sync::Wait;
use task_moves::moves;
use task_moves::moves::Owed;

/// The task is cancelled. Where a Runnable has to be scheduled, which will drop the future, the seat has it.
#[inline(always)]
pub fn cancel<F, T, W, R: Wait>(rt: &R, board: &Board<F, T, W>, pass: &mut Pass<F, T, W>) -> Owed
    requires seat { IsSeatOf board.now pass.old }
    requires has { Has Nothing pass.old }
    ensures same { IsSameSeat pass.old pass.new }
    ensures made { Makes moves.cancel pass.new.me.0 result }
    ensures right { HasQueued result.schedule pass.new }
{
    for _ in rt.forever() {
        let old = look(board, pass);
        let word = decode(old);
        let moved = moves::cancel(word.state);
        let new = encode(moved.state, word.rests);
        if new == old {
            return moved.owed;
        }
        if board.compare_exchange::<rule::Cancel>(pass, 0, old, new) == old {
            return moved.owed;
        }
    }
    unreachable!()
}

/// A Runnable is let go: the task is closed, its future is dropped, and `settle_closed` follows.
#[inline(always)]
pub fn drop_runnable<F, T, W, R: Wait>(
    rt: &R,
    board: &Board<F, T, W>,
    pass: &mut Pass<F, T, W>,
) -> Owed
    requires seat { IsSeatOf board.now pass.old }
    requires has { Has Queued pass.old }
    ensures same { IsSameSeat pass.old pass.new }
    ensures made { Makes moves.drop_runnable pass.new.me.0 result }
    ensures right { HasFuture Closing pass.new }
{
    for _ in rt.forever() {
        let old = look(board, pass);
        let word = decode(old);
        let moved = moves::drop_runnable(word.state);
        let new = encode(moved.state, word.rests);
        if board.compare_exchange::<rule::DropRunnable>(pass, 0, old, new) == old {
            return moved.owed;
        }
    }
    unreachable!()
}
