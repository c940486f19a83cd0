//! The other calls on a single slot: the close, and what a look at its word finds.
ghost use Rattle.std.specs.Prelude.{◌≡◌, ◌≤◌, true, false};
ghost use Rattle.queue_steps.specs.Reply.{Length};
ghost use Rattle.queue_steps.specs.SingleTurns.{End};
ghost use Rattle.concurrent_queue.specs.Answered.{says};
ghost use Rattle.concurrent_queue.specs.SingleSeat.{IsSeatOf, IsSameSeat, close_at, len_at, is_empty_at, is_full_at, is_closed_at};

use crate::single::Single;
use crate::single::moves::{self, Pass};
use queue_steps::steps::single as steps;

/// Closes the slot, and answers whether this call did so.
pub fn close<T>(slot: &Single<T>, pass: &mut Pass<T>) -> bool
    requires { IsSeatOf slot.now.board.shared pass.old }
    ensures same { IsSameSeat pass.old pass.new }
    ensures answers { close_at pass.new.me.0.found ≡ End (says result) }
    ensures closed { pass.new.me.0.closed ≡ true }
    ensures once { pass.old.me.0.closed ≡ true → result ≡ false }
{
    steps::close(moves::close(&slot.board.shared, pass))
}

/// 1 where an item is there or is being appended, else 0.
pub fn len<T>(slot: &Single<T>, pass: &mut Pass<T>) -> usize
    requires { IsSeatOf slot.now.board.shared pass.old }
    ensures same { IsSameSeat pass.old pass.new }
    ensures answers { len_at pass.new.me.0.found ≡ End (Length result) }
    ensures within { result ≤ 1 }
{
    steps::len(moves::begin(&slot.board.shared, pass)) as usize
}

/// Whether no item was there, or being appended, when the word was loaded.
pub fn is_empty<T>(slot: &Single<T>, pass: &mut Pass<T>) -> bool
    requires { IsSeatOf slot.now.board.shared pass.old }
    ensures same { IsSameSeat pass.old pass.new }
    ensures answers { is_empty_at pass.new.me.0.found ≡ End (says result) }
{
    steps::is_empty(moves::begin(&slot.board.shared, pass))
}

/// Whether an item was there, or being appended, when the word was loaded.
pub fn is_full<T>(slot: &Single<T>, pass: &mut Pass<T>) -> bool
    requires { IsSeatOf slot.now.board.shared pass.old }
    ensures same { IsSameSeat pass.old pass.new }
    ensures answers { is_full_at pass.new.me.0.found ≡ End (says result) }
{
    steps::is_full(moves::begin(&slot.board.shared, pass))
}

/// Whether the slot was closed when the word was loaded.
pub fn is_closed<T>(slot: &Single<T>, pass: &mut Pass<T>) -> bool
    requires { IsSeatOf slot.now.board.shared pass.old }
    ensures same { IsSameSeat pass.old pass.new }
    ensures answers { is_closed_at pass.new.me.0.found ≡ End (says result) }
    ensures keeps { pass.new.me.0.closed ≡ result }
    ensures stays_closed { pass.old.me.0.closed ≡ true → result ≡ true }
{
    steps::is_closed(moves::begin(&slot.board.shared, pass))
}
