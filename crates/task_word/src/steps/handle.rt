//! The moves of a task's handle: its detach, and the looks of its polls.
ghost use Rattle.task_moves.specs.Moves as moves;
ghost use Rattle.task_word.specs.Steps.{Makes, Has, HasPlace, HasOutput, LetGo, IsSeatOf, IsSameSeat};
ghost use Rattle.task_word.specs.declared.rule.Hold.TheVariants.{Handle, Spending};

use crate::layout::{decode, encode};
use crate::rule;
use crate::steps::{Board, Pass, leaves_awaiter, look};
use std::sync::Wait;
use task_moves::moves;
use task_moves::moves::Owed;

/// The handle goes. Where the output lies in the cell, the seat has that instead, to be taken out and dropped; `spend` and another
/// `detach` follow. Where it was the last of an open task, a Runnable has to be scheduled, and the seat has it. Where nobody can
/// reach the task any more and its awaiter is left, the second answer is true, and the seat has the awaiter's slot.
#[inline(always)]
pub fn detach<F, T, W, R: Wait>(
    rt: &R,
    board: &Board<F, T, W>,
    pass: &mut Pass<F, T, W>,
) -> (Owed, bool)
    requires seat { IsSeatOf board.now pass.old }
    requires has { Has Handle pass.old }
    ensures same { IsSameSeat pass.old pass.new }
    ensures made { Makes moves.detach pass.new.me.0 result.0 }
    ensures right { LetGo result.0.drop_output result.0.schedule result.1 pass.new }
{
    for _ in rt.forever() {
        let old = look(board, pass);
        let word = decode(old);
        let moved = moves::detach(word.state);
        let new = encode(moved.state, word.rests);
        if board.compare_exchange::<rule::Detach>(pass, 0, old, new) == old {
            return (moved.owed, leaves_awaiter(moved));
        }
    }
    unreachable!()
}

/// A poll of the handle looks at the task. Where the answer is the output, the seat has that, to be taken out; `spend`
/// follows, and then the awaiter's debt. `register` follows where nothing is answered yet.
#[inline(always)]
pub fn poll<F, T, W, R: Wait>(rt: &R, board: &Board<F, T, W>, pass: &mut Pass<F, T, W>) -> Owed
    requires seat { IsSeatOf board.now pass.old }
    requires has { Has Handle pass.old }
    ensures same { IsSameSeat pass.old pass.new }
    ensures made { Makes moves.poll pass.new.me.0 result }
    ensures right { HasOutput result.answer pass.new }
{
    for _ in rt.forever() {
        let old = look(board, pass);
        let word = decode(old);
        let moved = moves::poll(word.state);
        let new = encode(moved.state, word.rests);
        if new == old {
            return moved.owed;
        }
        if board.compare_exchange::<rule::Poll>(pass, 0, old, new) == old {
            return moved.owed;
        }
    }
    unreachable!()
}

/// It looks again, after it has registered its waker. What the seat has then is as after `poll`.
#[inline(always)]
pub fn look_again<F, T, W, R: Wait>(
    rt: &R,
    board: &Board<F, T, W>,
    pass: &mut Pass<F, T, W>,
) -> Owed
    requires seat { IsSeatOf board.now pass.old }
    requires has { Has Handle pass.old }
    ensures same { IsSameSeat pass.old pass.new }
    ensures made { Makes moves.look_again pass.new.me.0 result }
    ensures right { HasOutput result.answer pass.new }
{
    for _ in rt.forever() {
        let old = look(board, pass);
        let word = decode(old);
        let moved = moves::look_again(word.state);
        let new = encode(moved.state, word.rests);
        if new == old {
            return moved.owed;
        }
        if board.compare_exchange::<rule::LookAgain>(pass, 0, old, new) == old {
            return moved.owed;
        }
    }
    unreachable!()
}

/// The output was taken out of its slot. The seat has the handle again.
#[inline(always)]
pub fn spend<F, T, W>(board: &Board<F, T, W>, pass: &mut Pass<F, T, W>)
    requires seat { IsSeatOf board.now pass.old }
    requires has { HasPlace Spending pass.old }
    ensures same { IsSameSeat pass.old pass.new }
    ensures handle { Has Handle pass.new }
{
    board.load::<rule::Spend>(pass, 0);
}
