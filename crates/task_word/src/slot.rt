//! The slots, as the seat uses them that has the right to them.
ghost use Rattle.std.specs.Prelude.{◌≡◌, [], ◌∷◌, Some, None};
ghost use Rattle.task_word.specs.Awaiter.{awaiter_slot, HoldsAwaiter};
ghost use Rattle.task_word.specs.Steps.{HoldsFuture, IsSeatOf, IsSameSeat};
ghost use Rattle.task_word.specs.declared.rule.Content.TheVariants.{Future, Output};

use crate::rule::Content;
use crate::steps::{Board, Pass};

/// Takes the future out, to be polled or dropped.
#[inline(always)]
pub fn take_future<F, T, W>(board: &Board<F, T, W>, pass: &mut Pass<F, T, W>) -> F
    requires seat { IsSeatOf board.now pass.old }
    requires has { HoldsFuture pass.old }
    ensures same { IsSameSeat pass.old pass.new }
    ensures future { pass.old.me.1 ≡ (0, Some (Future result)) ∷ [] }
    ensures place { pass.new.me ≡ (pass.old.me.0, (0, None) ∷ []) }
{
    match board.exchange(pass, 0, None) {
        Some(Content::Future(future)) => future,
        _ => unreachable!(),
    }
}

/// Puts the future into its place.
#[inline(always)]
pub fn put_future<F, T, W>(board: &Board<F, T, W>, pass: &mut Pass<F, T, W>, future: F)
    requires seat { IsSeatOf board.now pass.old }
    requires has { pass.old.me.1 ≡ (0, None) ∷ [] }
    ensures same { IsSameSeat pass.old pass.new }
    ensures future { pass.new.me ≡ (pass.old.me.0, (0, Some (Future future)) ∷ []) }
{
    match board.exchange(pass, 0, Some(Content::Future(future))) {
        None => {}
        Some(_) => unreachable!(),
    }
}

/// Puts the output into the future's place.
#[inline(always)]
pub fn put_output<F, T, W>(board: &Board<F, T, W>, pass: &mut Pass<F, T, W>, output: T)
    requires seat { IsSeatOf board.now pass.old }
    requires has { pass.old.me.1 ≡ (0, None) ∷ [] }
    ensures same { IsSameSeat pass.old pass.new }
    ensures output { pass.new.me ≡ (pass.old.me.0, (0, Some (Output output)) ∷ []) }
{
    match board.exchange(pass, 0, Some(Content::Output(output))) {
        None => {}
        Some(_) => unreachable!(),
    }
}

/// Takes the output out.
#[inline(always)]
pub fn take_output<F, T, W>(board: &Board<F, T, W>, pass: &mut Pass<F, T, W>) -> T
    requires seat { IsSeatOf board.now pass.old }
    requires has { (t : T) × (pass.old.me.1 ≡ (0, Some (Output t)) ∷ []) }
    ensures same { IsSameSeat pass.old pass.new }
    ensures output { pass.old.me.1 ≡ (0, Some (Output result)) ∷ [] }
    ensures place { pass.new.me ≡ (pass.old.me.0, (0, None) ∷ []) }
{
    match board.exchange(pass, 0, None) {
        Some(Content::Output(output)) => output,
        _ => unreachable!(),
    }
}

/// Takes the awaiter out, where one is there.
#[inline(always)]
pub fn take_awaiter<F, T, W>(board: &Board<F, T, W>, pass: &mut Pass<F, T, W>) -> Option<W>
    requires seat { IsSeatOf board.now pass.old }
    requires has { HoldsAwaiter pass.old }
    ensures same { IsSameSeat pass.old pass.new }
    ensures awaiter { pass.old.me.1 ≡ (1, awaiter_slot result) ∷ [] }
    ensures place { pass.new.me ≡ (pass.old.me.0, (1, None) ∷ []) }
{
    match board.exchange(pass, 1, None) {
        Some(Content::Awaiter(awaiter)) => Some(awaiter),
        None => None,
        Some(_) => unreachable!(),
    }
}

/// Puts an awaiter into its place, or leaves that empty.
#[inline(always)]
pub fn put_awaiter<F, T, W>(board: &Board<F, T, W>, pass: &mut Pass<F, T, W>, awaiter: Option<W>)
    requires seat { IsSeatOf board.now pass.old }
    requires has { pass.old.me.1 ≡ (1, None) ∷ [] }
    ensures same { IsSameSeat pass.old pass.new }
    ensures awaiter { pass.new.me ≡ (pass.old.me.0, (1, awaiter_slot awaiter) ∷ []) }
{
    let content = match awaiter {
        Some(awaiter) => Some(Content::Awaiter(awaiter)),
        None => None,
    };
    match board.exchange(pass, 1, content) {
        None => {}
        Some(_) => unreachable!(),
    }
}
