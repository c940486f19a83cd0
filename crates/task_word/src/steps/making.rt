//! How a task comes into a cell, and how its Runnable rests in the word while no thread has it in hand.
ghost use Rattle.std.specs.Prelude.{◌≡◌, ◌↔◌, false, MatchBool, IsTrue};
ghost use Rattle.task_moves.specs.Moves as moves;
ghost use Rattle.task_word.specs.Cell.{filling};
ghost use Rattle.task_word.specs.Steps.{detached, IsOver, Has, HasFuture, HasPlace, FoundTask, FoundNoRunnable, IsSeatOf, IsSameSeat};
ghost use Rattle.task_word.specs.Word.{pack};
ghost use Rattle.task_word.specs.declared.rule.Hold.TheVariants.{Nothing, Handle, Queued, Filling};

use crate::layout::{RESTS, decode, encode};
use crate::rule;
use crate::steps::{Board, Pass, look};
use std::sync::Wait;
use task_moves::moves;
use task_moves::moves::State;

/// Nobody can reach the task any more, and nothing of it is left.
#[inline(always)]
fn is_over(state: State) -> bool
    ensures { IsTrue result ↔ IsOver state }
{
    state.references == 0
        && !state.handle
        && !state.scheduled
        && !state.running
        && state.closed
        && !state.awaiter
}

/// The state of a cell that is taken for a task, but has none yet: closed, so that nobody wakes it.
#[inline(always)]
fn taken() -> State
    ensures { result ≡ filling }
{
    State {
        closed: true,
        handle: false,
        references: 0,
        ..moves::make()
    }
}

/// Takes an empty cell for a new task. The answer is false where the cell isn't empty.
#[inline(always)]
pub fn reserve<F, T, W, R: Wait>(rt: &R, board: &Board<F, T, W>, pass: &mut Pass<F, T, W>) -> bool
    requires seat { IsSeatOf board.now pass.old }
    requires has { Has Nothing pass.old }
    ensures same { IsSameSeat pass.old pass.new }
    ensures right { MatchBool result (HasPlace Filling pass.new) (FoundTask pass.new) }
{
    for _ in rt.forever() {
        let old = look(board, pass);
        let word = decode(old);
        if is_over(word.state) {
            let new = encode(taken(), false);
            if board.compare_exchange::<rule::Reserve>(pass, 0, old, new) == old {
                return true;
            }
        } else {
            return false;
        }
    }
    unreachable!()
}

/// The task is made. Its future lies in the slot. The seat has its Runnable then, and the answer its handle.
#[inline(always)]
pub fn make<F, T, W>(board: &Board<F, T, W>, pass: &mut Pass<F, T, W>) -> Pass<F, T, W>
    requires seat { IsSeatOf board.now pass.old }
    requires has { HasFuture Filling pass.old }
    ensures same { IsSameSeat pass.old pass.new }
    ensures handles { IsSeatOf board.now result }
    ensures found { pass.new.me.0.found ≡ pack filling false }
    ensures left { pass.new.me.0.left ≡ pack moves.made false }
    ensures right { Has Queued pass.new }
    ensures handle { Has Handle result }
{
    let new = encode(moves::make(), false);
    board.store::<rule::Make>(pass, 0, new);
    board.split_seat::<rule::Parts>(pass)
}

/// The state of a new task that is detached.
#[inline(always)]
fn made() -> State
    ensures { result ≡ detached }
{
    moves::detach(moves::make()).state
}

/// The task is made, detached. Its future lies in the slot. The seat has its Runnable then.
#[inline(always)]
pub fn make_detached<F, T, W>(board: &Board<F, T, W>, pass: &mut Pass<F, T, W>)
    requires seat { IsSeatOf board.now pass.old }
    requires has { HasFuture Filling pass.old }
    ensures same { IsSameSeat pass.old pass.new }
    ensures found { pass.new.me.0.found ≡ pack filling false }
    ensures left { pass.new.me.0.left ≡ pack detached false }
    ensures right { Has Queued pass.new }
{
    let new = encode(made(), false);
    board.store::<rule::MakeDetached>(pass, 0, new);
}

/// The Runnable rests in the word, as its number stands in a queue.
#[inline(always)]
pub fn rest<F, T, W>(board: &Board<F, T, W>, pass: &mut Pass<F, T, W>)
    requires seat { IsSeatOf board.now pass.old }
    requires has { Has Queued pass.old }
    ensures same { IsSameSeat pass.old pass.new }
    ensures nothing { Has Nothing pass.new }
{
    board.fetch_add::<rule::Rest>(pass, 0, RESTS);
}

/// Takes the Runnable that rests in the word. The answer is false where none does.
#[inline(always)]
pub fn resume<F, T, W, R: Wait>(rt: &R, board: &Board<F, T, W>, pass: &mut Pass<F, T, W>) -> bool
    requires seat { IsSeatOf board.now pass.old }
    requires has { Has Nothing pass.old }
    ensures same { IsSameSeat pass.old pass.new }
    ensures right { MatchBool result (Has Queued pass.new) (FoundNoRunnable pass.new) }
{
    for _ in rt.forever() {
        let old = look(board, pass);
        let word = decode(old);
        if word.rests {
            let new = encode(word.state, false);
            if board.compare_exchange::<rule::Resume>(pass, 0, old, new) == old {
                return true;
            }
        } else {
            return false;
        }
    }
    unreachable!()
}

/// One try of a resume. The answer is false where none rests, or somebody else stepped meanwhile: nothing has changed then.
#[inline(always)]
pub fn resume_once<F, T, W>(board: &Board<F, T, W>, pass: &mut Pass<F, T, W>) -> bool
    requires seat { IsSeatOf board.now pass.old }
    requires has { Has Nothing pass.old }
    ensures same { IsSameSeat pass.old pass.new }
    ensures right { MatchBool result (Has Queued pass.new) (Has Nothing pass.new) }
{
    let old = look(board, pass);
    let word = decode(old);
    if word.rests {
        let new = encode(word.state, false);
        if board.compare_exchange::<rule::Resume>(pass, 0, old, new) == old {
            true
        } else {
            false
        }
    } else {
        false
    }
}
