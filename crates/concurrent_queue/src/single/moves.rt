//! Each kind of step on a single slot, as a function that is lent the table and a seat.
ghost use Rattle.std.specs.Prelude.{◌≡◌, ◌≢◌, ◌+◌, ◌%◌, ◌<◌, true, [], ◌∷◌, ◌++◌, MatchResult};
ghost use Rattle.concurrent_queue.specs.declared.single.rule.Stage.TheVariants.{Idle};
ghost use Rattle.queue_steps.specs.Single.{marks_of};
ghost use Rattle.concurrent_queue.specs.SingleRule.{doing, is_shut, closed};
ghost use Rattle.concurrent_queue.specs.SingleSeat.{IsSeatOf, IsSameSeat};

use crate::single::plays;
use crate::single::rule::{Doing, SingleRule};
use atomic_table::{Seat, Shared};
use queue_steps::steps::single as steps;

/// The table of a slot: one word, and the place of one item.
pub type Board<T> = Shared<Option<T>, Doing, (), SingleRule>;

/// A seat at that table, by which one call steps.
pub type Pass<T> = Seat<Option<T>, Doing>;

// The first look of a call.
#[inline(always)]
pub(crate) fn begin<T>(board: &Board<T>, pass: &mut Pass<T>) -> u64
    requires { IsSeatOf board.now pass.old }
    ensures { IsSameSeat pass.old pass.new × (pass.new.me.0 ≡ doing Idle (is_shut result) (result ∷ [])) }
{
    board.load::<plays::Begin>(pass, 0)
}

pub(crate) fn look<T>(board: &Board<T>, pass: &mut Pass<T>) -> u64
    requires { IsSeatOf board.now pass.old }
    ensures { IsSameSeat pass.old pass.new × (pass.new.me.0 ≡ doing Idle (is_shut result) (pass.old.me.0.found ++ result ∷ [])) }
{
    board.load::<plays::Look>(pass, 0)
}

// Exchanges the word, swaps the value in and takes off the lock. It answers what was there, and the word that it found at the end.
// Otherwise it gives the value back, with the word.
#[inline(always)]
pub(crate) fn write<T>(
    board: &Board<T>,
    pass: &mut Pass<T>,
    old: u64,
    new: u64,
    value: T,
) -> Result<(Option<T>, u64), (u64, T)>
    requires seat { IsSeatOf board.now pass.old }
    requires word { (old < 4) × (old % 2 ≡ 0) × (new ≡ 3) }
    ensures same { IsSameSeat pass.old pass.new }
    ensures found { MatchResult result (λ p. (marks_of p.0 ≡ old) × (pass.old.me.0.closed ≢ true)
        × (pass.new.me.0 ≡ doing Idle (is_shut p.1) ((pass.old.me.0.found ++ old ∷ []) ++ p.1 ∷ []))) (λ e. (e.1 ≡ value) × (e.0 ≢ old)
        × (pass.new.me.0 ≡ doing Idle (is_shut e.0) (pass.old.me.0.found ++ e.0 ∷ []))) }
{
    let found = board.compare_exchange::<plays::Claim>(pass, 0, old, new);
    if found != old {
        return Err((found, value));
    }
    let held = board.exchange(pass, 0, Some(value));
    let last = board.fetch_sub::<plays::Return>(pass, 0, steps::LOCKED);
    Ok((held, last))
}

// Exchanges the word, takes the item and takes off the lock. It also answers the word that it found at the end. Otherwise it
// answers the word that it found.
#[inline(always)]
pub(crate) fn read<T>(
    board: &Board<T>,
    pass: &mut Pass<T>,
    old: u64,
    new: u64,
) -> Result<(T, u64), u64>
    requires seat { IsSeatOf board.now pass.old }
    requires word { (old % 4 ≡ 2) × (new + 1 ≡ old) }
    ensures same { IsSameSeat pass.old pass.new }
    ensures found { MatchResult result (λ p. pass.new.me.0 ≡ doing Idle (is_shut p.1) ((pass.old.me.0.found ++ old ∷ []) ++ p.1 ∷ []))
        (λ w. (w ≢ old) × (pass.new.me.0 ≡ doing Idle (is_shut w) (pass.old.me.0.found ++ w ∷ []))) }
{
    let found = board.compare_exchange::<plays::Take>(pass, 0, old, new);
    if found != old {
        return Err(found);
    }
    let item = board.exchange(pass, 0, None);
    let left = board.fetch_sub::<plays::Return>(pass, 0, steps::LOCKED);
    Ok((item.unwrap(), left))
}

// The close, which sets the mark whatever else the word has. It is the only step of its call.
pub(crate) fn close<T>(board: &Board<T>, pass: &mut Pass<T>) -> u64
    requires { IsSeatOf board.now pass.old }
    ensures { IsSameSeat pass.old pass.new × closed pass.old.me result pass.new.me }
{
    board.fetch_or::<plays::Shut>(pass, 0, steps::CLOSED)
}
