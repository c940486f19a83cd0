//! The moves at the awaiter: of who wants it called, of who registers it, and of who finds it left.
ghost use Rattle.std.specs.Prelude.{◌≡◌, ◌⊎◌, false};
ghost use Rattle.task_moves.specs.Moves as moves;
ghost use Rattle.task_word.specs.Awaiter.{IsAtSlot, HasAwaiterPlace, comes_back};
ghost use Rattle.task_word.specs.Cell.{vacant};
ghost use Rattle.task_word.specs.Steps.{Makes, Has, IsHandedBack, IsSeatOf, IsSameSeat};
ghost use Rattle.task_word.specs.Word.{pack};
ghost use Rattle.task_word.specs.declared.rule.Hold.TheVariants.{Nothing, Leaving, Handle, Registering, HandleNotifying, RunNotifying, Emptying};

use crate::layout::{EMPTY, decode, encode};
use crate::rule;
use crate::slot::{put_awaiter, take_awaiter};
use crate::steps::{Board, Pass, look};
use std::sync::Wait;
use task_moves::moves;
use task_moves::moves::Owed;

/// The handle, or what is left of a run, wants the awaiter called. Where nobody else is at the awaiter, the seat has its
/// slot; `take_awaiter` and `end_notify` follow, and then the call. Else who is there calls it.
#[inline(always)]
pub fn notify<F, T, W, R: Wait>(rt: &R, board: &Board<F, T, W>, pass: &mut Pass<F, T, W>) -> Owed
    requires seat { IsSeatOf board.now pass.old }
    requires has { Has Handle pass.old ⊎ Has Leaving pass.old }
    ensures same { IsSameSeat pass.old pass.new }
    ensures made { Makes moves.notify pass.new.me.0 result }
    ensures by_handle { Has Handle pass.old → IsAtSlot result.awaiter HandleNotifying Handle pass.new }
    ensures by_run { Has Leaving pass.old → IsAtSlot result.awaiter RunNotifying Leaving pass.new }
{
    for _ in rt.forever() {
        let old = look(board, pass);
        let word = decode(old);
        let moved = moves::notify(word.state);
        let new = encode(moved.state, word.rests);
        if board.compare_exchange::<rule::Notify>(pass, 0, old, new) == old {
            return moved.owed;
        }
    }
    unreachable!()
}

/// The awaiter was taken out. The seat has what it had before it came to the awaiter.
#[inline(always)]
pub fn end_notify<F, T, W, R: Wait>(
    rt: &R,
    board: &Board<F, T, W>,
    pass: &mut Pass<F, T, W>,
) -> Owed
    requires seat { IsSeatOf board.now pass.old }
    requires has { HasAwaiterPlace HandleNotifying pass.old ⊎ HasAwaiterPlace RunNotifying pass.old }
    ensures same { IsSameSeat pass.old pass.new }
    ensures made { Makes moves.end_notify pass.new.me.0 result }
    ensures by_handle { HasAwaiterPlace HandleNotifying pass.old → Has Handle pass.new }
    ensures by_run { HasAwaiterPlace RunNotifying pass.old → Has Leaving pass.new }
{
    for _ in rt.forever() {
        let old = look(board, pass);
        let word = decode(old);
        let moved = moves::end_notify(word.state);
        let new = encode(moved.state, word.rests);
        if board.compare_exchange::<rule::EndNotify>(pass, 0, old, new) == old {
            return moved.owed;
        }
    }
    unreachable!()
}

/// A poll of the handle begins to register its waker. Where nobody is notifying, the seat has the awaiter's slot;
/// `take_awaiter` and `end_register` follow, and the awaiter that was there is dropped when all is done. Else the poll
/// calls its waker.
#[inline(always)]
pub fn register<F, T, W, R: Wait>(rt: &R, board: &Board<F, T, W>, pass: &mut Pass<F, T, W>) -> Owed
    requires seat { IsSeatOf board.now pass.old }
    requires has { Has Handle pass.old }
    ensures same { IsSameSeat pass.old pass.new }
    ensures made { Makes moves.register pass.new.me.0 result }
    ensures right { IsAtSlot result.awaiter Registering Handle pass.new }
{
    for _ in rt.forever() {
        let old = look(board, pass);
        let word = decode(old);
        let moved = moves::register(word.state);
        let new = encode(moved.state, word.rests);
        if board.compare_exchange::<rule::Register>(pass, 0, old, new) == old {
            return moved.owed;
        }
    }
    unreachable!()
}

/// The waker is stored, and the seat has the handle again. Where somebody wanted to notify meanwhile, the waker comes back,
/// to be called.
#[inline(always)]
pub fn end_register<F, T, W, R: Wait>(
    rt: &R,
    board: &Board<F, T, W>,
    pass: &mut Pass<F, T, W>,
    waker: W,
) -> (Owed, Option<W>)
    requires seat { IsSeatOf board.now pass.old }
    requires has { HasAwaiterPlace Registering pass.old }
    ensures same { IsSameSeat pass.old pass.new }
    ensures made { Makes moves.end_register pass.new.me.0 result.0 }
    ensures one { Has Handle pass.new }
    ensures waker { IsHandedBack (comes_back result.0.awaiter) waker result.1 }
{
    put_awaiter(board, pass, Some(waker));
    for _ in rt.forever() {
        let old = look(board, pass);
        let word = decode(old);
        let moved = moves::end_register(word.state);
        let new = encode(moved.state, word.rests);
        if word.state.notifying {
            let waker = take_awaiter(board, pass);
            if board.compare_exchange::<rule::EndRegister>(pass, 0, old, new) == old {
                return (moved.owed, waker);
            }
            put_awaiter(board, pass, waker);
        } else if board.compare_exchange::<rule::EndRegister>(pass, 0, old, new) == old {
            return (moved.owed, None);
        }
    }
    unreachable!()
}

/// The awaiter that was left was taken out. The cell has no task then, and may be taken for another.
#[inline(always)]
pub fn empty<F, T, W>(board: &Board<F, T, W>, pass: &mut Pass<F, T, W>)
    requires seat { IsSeatOf board.now pass.old }
    requires has { HasAwaiterPlace Emptying pass.old }
    ensures same { IsSameSeat pass.old pass.new }
    ensures left { pass.new.me.0.left ≡ pack vacant false }
    ensures nothing { Has Nothing pass.new }
{
    board.swap::<rule::Empty>(pass, 0, EMPTY);
}
