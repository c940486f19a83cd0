//! The moves of wakers: wake, copy, release, and give up what is left of a run.
ghost use Rattle.std.specs.Prelude.{◌≡◌, true, IfSome, MatchBool, MatchOption};
ghost use Rattle.task_moves.specs.Moves as moves;
ghost use Rattle.task_word.specs.Steps as steps;
ghost use Rattle.task_word.specs.Once.{stays};
ghost use Rattle.task_word.specs.Steps.{is_dead, Makes, Has, HasQueued, HasCopy, HasLeft, IsSeatOf, IsSameSeat};
ghost use Rattle.task_word.specs.declared.rule.Hold.TheVariants.{Nothing, Reference, Leaving};

use crate::layout::{decode, encode};
use crate::rule;
use crate::steps::{Board, Pass, leaves_awaiter, look};
use std::sync::Wait;
use task_moves::moves;
use task_moves::moves::{Answer, Moved, Owed, State};

/// A wake by reference. Where a Runnable has to be scheduled, the seat has it.
#[inline(always)]
pub fn wake<F, T, W, R: Wait>(rt: &R, board: &Board<F, T, W>, pass: &mut Pass<F, T, W>) -> Owed
    requires seat { IsSeatOf board.now pass.old }
    requires has { Has Nothing pass.old }
    ensures same { IsSameSeat pass.old pass.new }
    ensures made { Makes moves.wake_by_reference pass.new.me.0 result }
    ensures right { HasQueued result.schedule pass.new }
{
    for _ in rt.forever() {
        let old = look(board, pass);
        let word = decode(old);
        let moved = moves::wake_by_reference(word.state);
        let new = encode(moved.state, word.rests);
        if new == old {
            return moved.owed;
        }
        if board.compare_exchange::<rule::WakeByReference>(pass, 0, old, new) == old {
            return moved.owed;
        }
    }
    unreachable!()
}

/// It is over or scheduled: a wake changes nothing.
#[inline(always)]
fn stays_awake(state: State) -> bool
    ensures { result ≡ stays state }
{
    state.completed || state.closed || state.scheduled
}

/// One try of a wake. None where somebody else stepped meanwhile: nothing has changed then.
#[inline(always)]
pub fn wake_once<F, T, W>(board: &Board<F, T, W>, pass: &mut Pass<F, T, W>) -> Option<Owed>
    requires seat { IsSeatOf board.now pass.old }
    requires has { Has Nothing pass.old }
    ensures same { IsSameSeat pass.old pass.new }
    ensures made { IfSome result (λ owed. Makes moves.wake_by_reference pass.new.me.0 owed) }
    ensures right { MatchOption result (Has Nothing pass.new) (λ owed. HasQueued owed.schedule pass.new) }
{
    let old = look(board, pass);
    let word = decode(old);
    let moved = moves::wake_by_reference(word.state);
    if stays_awake(word.state) {
        return Some(moved.owed);
    }
    let new = encode(moved.state, word.rests);
    if board.compare_exchange::<rule::WakeByReference>(pass, 0, old, new) == old {
        Some(moved.owed)
    } else {
        None
    }
}

#[inline(always)]
fn is_dead_now(state: State) -> bool
    ensures { result ≡ is_dead state }
{
    state.references == 0 && !state.handle
}

/// The move of a copy, which is refused too where nobody has a reference or the handle.
#[inline(always)]
fn copy_of(state: State) -> Moved
    ensures { result ≡ steps.copy state }
{
    if is_dead_now(state) {
        Moved {
            state,
            owed: Owed {
                schedule: None,
                future: None,
                drop_output: false,
                awaiter: None,
                next: None,
                answer: Some(Answer::Refused),
                empty_cell: false,
            },
        }
    } else {
        moves::copy(state)
    }
}

/// One reference more, unless it is refused: where there are too many, or none and no handle.
#[inline(always)]
pub fn copy<F, T, W, R: Wait>(rt: &R, board: &Board<F, T, W>, pass: &mut Pass<F, T, W>) -> Owed
    requires seat { IsSeatOf board.now pass.old }
    requires has { Has Nothing pass.old }
    ensures same { IsSameSeat pass.old pass.new }
    ensures made { Makes steps.copy pass.new.me.0 result }
    ensures one { HasCopy result.answer pass.new }
{
    for _ in rt.forever() {
        let old = look(board, pass);
        let word = decode(old);
        let moved = copy_of(word.state);
        if moved.owed.answer.is_some() {
            return moved.owed;
        }
        let new = encode(moved.state, word.rests);
        if board.compare_exchange::<rule::Copy>(pass, 0, old, new) == old {
            return moved.owed;
        }
    }
    unreachable!()
}

/// One try of a copy. None where somebody else stepped meanwhile: nothing has changed then.
#[inline(always)]
pub fn copy_once<F, T, W>(board: &Board<F, T, W>, pass: &mut Pass<F, T, W>) -> Option<Owed>
    requires seat { IsSeatOf board.now pass.old }
    requires has { Has Nothing pass.old }
    ensures same { IsSameSeat pass.old pass.new }
    ensures made { IfSome result (λ owed. Makes steps.copy pass.new.me.0 owed) }
    ensures one { MatchOption result (Has Nothing pass.new) (λ owed. HasCopy owed.answer pass.new) }
{
    let old = look(board, pass);
    let word = decode(old);
    let moved = copy_of(word.state);
    if moved.owed.answer.is_some() {
        return Some(moved.owed);
    }
    let new = encode(moved.state, word.rests);
    if board.compare_exchange::<rule::Copy>(pass, 0, old, new) == old {
        Some(moved.owed)
    } else {
        None
    }
}

/// Whether one reference is left, and no handle.
#[inline(always)]
fn is_last_now(state: State) -> bool
    ensures { result ≡ moves.is_last state }
{
    state.references == 1 && !state.handle
}

/// One try of a release that isn't the last, which owes nothing. The answer is false where it would be the last, or somebody else
/// stepped meanwhile: nothing has changed then.
#[inline(always)]
pub fn release_once<F, T, W>(board: &Board<F, T, W>, pass: &mut Pass<F, T, W>) -> bool
    requires seat { IsSeatOf board.now pass.old }
    requires has { Has Reference pass.old }
    ensures same { IsSameSeat pass.old pass.new }
    ensures made { result ≡ true → Makes moves.release pass.new.me.0 moves.nothing }
    ensures right { MatchBool result (Has Nothing pass.new) (Has Reference pass.new) }
{
    let old = look(board, pass);
    let word = decode(old);
    if is_last_now(word.state) {
        return false;
    }
    let moved = moves::release(word.state);
    let new = encode(moved.state, word.rests);
    if board.compare_exchange::<rule::Release>(pass, 0, old, new) == old {
        true
    } else {
        false
    }
}

/// A waker goes. Where it was the last of an open task, a Runnable has to be scheduled, and the seat has it. Where nobody can
/// reach the task any more and its awaiter is left, the second answer is true, and the seat has the awaiter's slot.
#[inline(always)]
pub fn release<F, T, W, R: Wait>(
    rt: &R,
    board: &Board<F, T, W>,
    pass: &mut Pass<F, T, W>,
) -> (Owed, bool)
    requires seat { IsSeatOf board.now pass.old }
    requires has { Has Reference pass.old }
    ensures same { IsSameSeat pass.old pass.new }
    ensures made { Makes moves.release pass.new.me.0 result.0 }
    ensures right { HasLeft result.0.schedule result.1 pass.new }
{
    for _ in rt.forever() {
        let old = look(board, pass);
        let word = decode(old);
        let moved = moves::release(word.state);
        let new = encode(moved.state, word.rests);
        if board.compare_exchange::<rule::Release>(pass, 0, old, new) == old {
            return (moved.owed, leaves_awaiter(moved));
        }
    }
    unreachable!()
}

/// A run or a closing call gives its reference up. The second answer is that of `release`.
#[inline(always)]
pub fn give_up<F, T, W, R: Wait>(
    rt: &R,
    board: &Board<F, T, W>,
    pass: &mut Pass<F, T, W>,
) -> (Owed, bool)
    requires seat { IsSeatOf board.now pass.old }
    requires has { Has Leaving pass.old }
    ensures same { IsSameSeat pass.old pass.new }
    ensures made { Makes moves.give_up pass.new.me.0 result.0 }
    ensures right { HasLeft result.0.schedule result.1 pass.new }
{
    for _ in rt.forever() {
        let old = look(board, pass);
        let word = decode(old);
        let moved = moves::give_up(word.state);
        let new = encode(moved.state, word.rests);
        if board.compare_exchange::<rule::GiveUp>(pass, 0, old, new) == old {
            return (moved.owed, leaves_awaiter(moved));
        }
    }
    unreachable!()
}
