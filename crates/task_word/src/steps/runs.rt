//! The moves of a run, from its take-up to the ends of its poll, and of a call that drops a closed
//! task's future.
ghost use Rattle.std.specs.Prelude.{◌≡◌, [], ◌∷◌, true, is_some, Some, IfSome, MatchBool, MatchOption};
ghost use Rattle.task_moves.specs.Moves as moves;
ghost use Rattle.task_word.specs.Once.{begins};
ghost use Rattle.task_word.specs.Steps.{Makes, Is, Has, HasQueued, HasFuture, HasPlace, TakenUp, Paused, IsHandedBack, IsSeatOf, IsSameSeat};
ghost use Rattle.task_word.specs.declared.rule.Hold.TheVariants.{Leaving, Queued, Running, Closing, Ending};
ghost use Rattle.task_word.specs.declared.rule.Content.TheVariants.{Future};

use crate::layout::{decode, encode};
use crate::rule;
use crate::slot::{put_future, put_output, take_future, take_output};
use crate::steps::{Board, Pass, look};
use std::sync::Wait;
use task_moves::moves;
use task_moves::moves::Owed;

/// A Runnable becomes a run. Where the task is closed, its future is dropped instead, and `settle_closed` follows.
#[inline(always)]
pub fn take_up<F, T, W, R: Wait>(rt: &R, board: &Board<F, T, W>, pass: &mut Pass<F, T, W>) -> Owed
    requires seat { IsSeatOf board.now pass.old }
    requires has { Has Queued pass.old }
    ensures same { IsSameSeat pass.old pass.new }
    ensures made { Makes moves.take_up pass.new.me.0 result }
    ensures right { TakenUp result.next pass.new }
{
    for _ in rt.forever() {
        let old = board.load::<rule::LookUp>(pass, 0);
        let word = decode(old);
        let moved = moves::take_up(word.state);
        if word.state.closed {
            return moved.owed;
        }
        let new = encode(moved.state, word.rests);
        if board.compare_exchange::<rule::TakeUp>(pass, 0, old, new) == old {
            return moved.owed;
        }
    }
    unreachable!()
}

/// One try of the take-up of an open task, whose future is to be polled. The answer is false where the task is closed, or somebody
/// else stepped meanwhile: nothing has changed then.
#[inline(always)]
pub fn take_up_once<F, T, W>(board: &Board<F, T, W>, pass: &mut Pass<F, T, W>) -> bool
    requires seat { IsSeatOf board.now pass.old }
    requires has { Has Queued pass.old }
    ensures same { IsSameSeat pass.old pass.new }
    ensures made { result ≡ true → Makes moves.take_up pass.new.me.0 begins }
    ensures right { MatchBool result (HasFuture Running pass.new) (Has Queued pass.new) }
{
    let old = look(board, pass);
    let word = decode(old);
    if word.state.closed {
        return false;
    }
    let moved = moves::take_up(word.state);
    let new = encode(moved.state, word.rests);
    if board.compare_exchange::<rule::TakeUp>(pass, 0, old, new) == old {
        true
    } else {
        false
    }
}

/// The future of a closed task was dropped before a poll.
#[inline(always)]
pub fn settle_closed<F, T, W, R: Wait>(
    rt: &R,
    board: &Board<F, T, W>,
    pass: &mut Pass<F, T, W>,
) -> Owed
    requires seat { IsSeatOf board.now pass.old }
    requires has { HasPlace Closing pass.old }
    ensures same { IsSameSeat pass.old pass.new }
    ensures made { Makes moves.settle_closed pass.new.me.0 result }
    ensures one { Has Leaving pass.new }
{
    for _ in rt.forever() {
        let old = look(board, pass);
        let word = decode(old);
        let moved = moves::settle_closed(word.state);
        let new = encode(moved.state, word.rests);
        if board.compare_exchange::<rule::SettleClosed>(pass, 0, old, new) == old {
            return moved.owed;
        }
    }
    unreachable!()
}

/// The same after a poll.
#[inline(always)]
pub fn end_closed<F, T, W, R: Wait>(
    rt: &R,
    board: &Board<F, T, W>,
    pass: &mut Pass<F, T, W>,
) -> Owed
    requires seat { IsSeatOf board.now pass.old }
    requires has { HasPlace Ending pass.old }
    ensures same { IsSameSeat pass.old pass.new }
    ensures made { Makes moves.end_closed pass.new.me.0 result }
    ensures one { Has Leaving pass.new }
{
    for _ in rt.forever() {
        let old = look(board, pass);
        let word = decode(old);
        let moved = moves::end_closed(word.state);
        let new = encode(moved.state, word.rests);
        if board.compare_exchange::<rule::EndClosed>(pass, 0, old, new) == old {
            return moved.owed;
        }
    }
    unreachable!()
}

/// The poll gave an output, and the future was dropped. The output stays for the handle; where that is gone or the task is
/// closed, it is answered, to be dropped.
#[inline(always)]
pub fn end_ready<F, T, W, R: Wait>(
    rt: &R,
    board: &Board<F, T, W>,
    pass: &mut Pass<F, T, W>,
    output: T,
) -> (Owed, Option<T>)
    requires seat { IsSeatOf board.now pass.old }
    requires has { HasPlace Running pass.old }
    ensures same { IsSameSeat pass.old pass.new }
    ensures made { Makes moves.end_ready pass.new.me.0 result.0 }
    ensures one { Has Leaving pass.new }
    ensures output { IsHandedBack result.0.drop_output output result.1 }
{
    put_output(board, pass, output);
    for _ in rt.forever() {
        let old = look(board, pass);
        let word = decode(old);
        let moved = moves::end_ready(word.state);
        let new = encode(moved.state, word.rests);
        if moved.owed.drop_output {
            let output = take_output(board, pass);
            if board.compare_exchange::<rule::EndReady>(pass, 0, old, new) == old {
                return (moved.owed, Some(output));
            }
            put_output(board, pass, output);
        } else if board.compare_exchange::<rule::EndReady>(pass, 0, old, new) == old {
            return (moved.owed, None);
        }
    }
    unreachable!()
}

/// One try of the end of a poll without output. None where the task is closed, nobody can reach it any more, or somebody else
/// stepped meanwhile: nothing has changed then.
#[inline(always)]
pub fn end_pending_once<F, T, W>(board: &Board<F, T, W>, pass: &mut Pass<F, T, W>) -> Option<Owed>
    requires seat { IsSeatOf board.now pass.old }
    requires has { HasFuture Running pass.old }
    ensures same { IsSameSeat pass.old pass.new }
    ensures made { IfSome result (λ owed. Makes moves.end_pending pass.new.me.0 owed) }
    ensures right { MatchOption result (Is Running pass.old.me.1 pass.new.me) (λ owed. HasQueued owed.schedule pass.new) }
{
    let old = look(board, pass);
    let word = decode(old);
    if word.state.closed {
        return None;
    }
    let moved = moves::end_pending(word.state);
    if moved.owed.empty_cell {
        return None;
    }
    let new = encode(moved.state, word.rests);
    if board.compare_exchange::<rule::EndPending>(pass, 0, old, new) == old {
        Some(moved.owed)
    } else {
        None
    }
}

/// What the end of a poll without output leaves.
pub struct Pause<F> {
    pub owed: Owed,
    /// The future, where nobody can reach the task any more: it is to be dropped.
    pub future: Option<F>,
    /// Then, that the task's awaiter is left, whose slot the seat has.
    pub leaves_awaiter: bool,
}

/// The poll gave no output. Where the task is closed, its future is dropped, and `end_closed` follows.
#[inline(always)]
pub fn end_pending<F, T, W, R: Wait>(
    rt: &R,
    board: &Board<F, T, W>,
    pass: &mut Pass<F, T, W>,
) -> Pause<F>
    requires seat { IsSeatOf board.now pass.old }
    requires has { HasFuture Running pass.old }
    ensures same { IsSameSeat pass.old pass.new }
    ensures made { Makes moves.end_pending pass.new.me.0 result.owed }
    ensures future { is_some result.future ≡ result.owed.empty_cell }
    ensures right { Paused result.owed.next result.owed.schedule result.leaves_awaiter pass.new }
    ensures kept { is_some result.owed.next ≡ true → pass.new.me.1 ≡ pass.old.me.1 }
    ensures back { IfSome result.future (λ f. pass.old.me.1 ≡ (0, Some (Future f)) ∷ []) }
{
    for _ in rt.forever() {
        let old = board.load::<rule::LookBack>(pass, 0);
        let word = decode(old);
        let moved = moves::end_pending(word.state);
        if word.state.closed {
            return Pause {
                owed: moved.owed,
                future: None,
                leaves_awaiter: false,
            };
        }
        let new = encode(moved.state, word.rests);
        if moved.owed.empty_cell {
            let future = take_future(board, pass);
            if board.compare_exchange::<rule::EndPending>(pass, 0, old, new) == old {
                return Pause {
                    owed: moved.owed,
                    future: Some(future),
                    leaves_awaiter: moved.state.awaiter,
                };
            }
            put_future(board, pass, future);
        } else if board.compare_exchange::<rule::EndPending>(pass, 0, old, new) == old {
            return Pause {
                owed: moved.owed,
                future: None,
                leaves_awaiter: false,
            };
        }
    }
    unreachable!()
}
