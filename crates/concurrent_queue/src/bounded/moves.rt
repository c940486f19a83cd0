//! Each kind of step on a ring, as a function that is lent the table and a seat.
ghost use Rattle.std.specs.Prelude.{◌≡◌, ℕ, ◌+◌, ◌*◌, ◌%◌, ◌^◌, ◌<◌, ◌≤◌, false, [], ◌∷◌, ◌++◌, ◌⊎◌, Option, Some, None};
ghost use Rattle.queue_steps.specs.Bounded.{IsPlaceWord, next_at, is_marked};
ghost use Rattle.concurrent_queue.specs.BoundedRule.{doing, saw_tail, saw_head, looked, looked_behind, looked_at_tail, appended, took, displaced};
ghost use Rattle.concurrent_queue.specs.BoundedRule.{advanced, spent, closed};
ghost use Rattle.concurrent_queue.specs.BoundedSeat.{IsSeatOf, IsSameSeat};
ghost use Rattle.concurrent_queue.specs.declared.bounded.rule.Stage.TheVariants.{Idle, SawTail, SawHead, SawStamp, Writing, Reading};
ghost use Rattle.concurrent_queue.specs.declared.bounded.rule.Stage.TheVariants.{Forcing, Swapping};

use crate::bounded::plays;
use crate::bounded::rule::{BoundedRule, Doing};
use atomic_table::{Seat, Shared};
use queue_steps::steps::bounded::Shape;

/// The table of a ring: its tail, its head, a stamp for each place, and the places.
pub type Board<T> = Shared<Option<T>, Doing, Shape, BoundedRule>;

/// A seat at that table, by which one call steps.
pub type Pass<T> = Seat<Option<T>, Doing>;

// Which word of the table is which. The tail, the head and the first stamp lie 128 bytes apart, so that they share no
// cache line.
/// The word of the tail.
pub const TAIL: usize = 0;

/// The word of the head.
pub const HEAD: usize = 16;

// Between the tail and the head, on a cache line of neither.
/// A word that no step changes: a new seat is made by a load of it.
pub const UNUSED: usize = 8;

/// The word of the first place's stamp; those of the others follow.
pub const STAMPS: usize = 32;

/// The first load of a call.
#[inline(always)]
pub fn begin_tail<T>(board: &Board<T>, pass: &mut Pass<T>) -> u64
    requires { IsSeatOf board.now pass.old }
    ensures { IsSameSeat pass.old pass.new × saw_tail [] pass.old.me result pass.new.me }
{
    board.load::<plays::BeginTail>(pass, TAIL)
}

/// The first load of a call.
#[inline(always)]
pub fn begin_head<T>(board: &Board<T>, pass: &mut Pass<T>) -> u64
    requires { IsSeatOf board.now pass.old }
    ensures { IsSameSeat pass.old pass.new × saw_head [] pass.old.me result pass.new.me }
{
    board.load::<plays::BeginHead>(pass, HEAD)
}

/// Loads the tail, as it stands.
#[inline(always)]
pub fn tail<T>(board: &Board<T>, pass: &mut Pass<T>) -> u64
    requires { IsSeatOf board.now pass.old }
    ensures { IsSameSeat pass.old pass.new × saw_tail pass.old.me.0.found pass.old.me result pass.new.me }
{
    board.load::<plays::SeeTail>(pass, TAIL)
}

/// Loads the head, as it stands.
pub fn head<T>(board: &Board<T>, pass: &mut Pass<T>) -> u64
    requires { IsSeatOf board.now pass.old }
    ensures { IsSameSeat pass.old pass.new × saw_head pass.old.me.0.found pass.old.me result pass.new.me }
{
    board.load::<plays::SeeHead>(pass, HEAD)
}

/// Loads the tail for its number and its mark.
#[inline(always)]
pub fn look_at_tail<T>(board: &Board<T>, pass: &mut Pass<T>) -> u64
    requires { IsSeatOf board.now pass.old }
    ensures { IsSameSeat pass.old pass.new × looked_at_tail pass.old.me result pass.new.me }
{
    board.load::<plays::LookAtTail>(pass, TAIL)
}

/// Loads the head for its number alone.
#[inline(always)]
pub fn look_at_head<T>(board: &Board<T>, pass: &mut Pass<T>) -> u64
    requires { IsSeatOf board.now pass.old }
    ensures { IsSameSeat pass.old pass.new × looked pass.old.me result pass.new.me }
{
    board.load::<plays::Look>(pass, HEAD)
}

/// Loads the head for its number alone. It is not too far behind the tail that was seen.
#[inline(always)]
pub fn look_behind<T>(board: &Board<T>, pass: &mut Pass<T>) -> u64
    requires { IsSeatOf board.now pass.old }
    ensures { IsSameSeat pass.old pass.new × looked_behind board.now.key.capacity pass.old.me result pass.new.me }
{
    board.load::<plays::LookBehind>(pass, HEAD)
}

/// Loads the stamp of the place at the tail that was seen.
#[inline(always)]
pub fn stamp_at_tail<T>(board: &Board<T>, pass: &mut Pass<T>, index: usize) -> u64
    requires seat { IsSeatOf board.now pass.old }
    requires place { index < board.now.key.capacity }
    requires seen { (pass.old.me.0.stage ≡ SawTail) × (index ≡ pass.old.me.0.word % board.now.key.mark)
        × (is_marked board.now.key.mark pass.old.me.0.word ≡ false) }
    ensures same { IsSameSeat pass.old pass.new }
    ensures seen { pass.new.me
        ≡ (
          doing SawStamp pass.old.me.0.at index pass.old.me.0.word result pass.old.me.0.mark pass.old.me.0.closed
              (pass.old.me.0.found ++ result ∷ []),
          pass.old.me.1,
        ) }
{
    board.load::<plays::SeeStamp>(pass, index + STAMPS)
}

/// Loads the stamp of the place at the head that was seen.
#[inline(always)]
pub fn stamp_at_head<T>(board: &Board<T>, pass: &mut Pass<T>, index: usize) -> u64
    requires seat { IsSeatOf board.now pass.old }
    requires place { index < board.now.key.capacity }
    requires seen { (pass.old.me.0.stage ≡ SawHead) × (index ≡ pass.old.me.0.word % board.now.key.mark) }
    ensures same { IsSameSeat pass.old pass.new }
    ensures seen { pass.new.me
        ≡ (
          doing SawStamp pass.old.me.0.at index pass.old.me.0.word result pass.old.me.0.mark pass.old.me.0.closed
              (pass.old.me.0.found ++ result ∷ []),
          pass.old.me.1,
        ) }
{
    board.load::<plays::SeeStamp>(pass, index + STAMPS)
}

/// The append, where the tail is still `old`.
#[inline(always)]
pub fn append<T>(board: &Board<T>, pass: &mut Pass<T>, old: u64, new: u64) -> u64
    requires seat { IsSeatOf board.now pass.old }
    requires seen { (pass.old.me.0.stage ≡ SawStamp) × (old ≡ pass.old.me.0.word) × (pass.old.me.0.stamp ≡ pass.old.me.0.word) }
    requires next { new ≡ next_at board.now.key.capacity board.now.key.mark old }
    ensures { IsSameSeat pass.old pass.new × appended old pass.old.me result pass.new.me }
{
    board.compare_exchange::<plays::Append>(pass, TAIL, old, new)
}

/// The take, where the head is still `old`.
#[inline(always)]
pub fn take<T>(board: &Board<T>, pass: &mut Pass<T>, old: u64, new: u64) -> u64
    requires seat { IsSeatOf board.now pass.old }
    requires seen { (pass.old.me.0.stage ≡ SawStamp) × (old ≡ pass.old.me.0.word) × (pass.old.me.0.stamp ≡ pass.old.me.0.word + 1) }
    requires next { new ≡ next_at board.now.key.capacity board.now.key.mark old }
    ensures { IsSameSeat pass.old pass.new × took old pass.old.me result pass.new.me }
{
    board.compare_exchange::<plays::Take>(pass, HEAD, old, new)
}

/// The displacement, where the head is still a lap before the tail that was seen.
pub fn displace<T>(board: &Board<T>, pass: &mut Pass<T>, old: u64, new: u64) -> u64
    requires seat { IsSeatOf board.now pass.old }
    requires seen { (pass.old.me.0.stage ≡ SawStamp) × (old + 2 * board.now.key.mark ≡ pass.old.me.0.word)
        × (pass.old.me.0.stamp + 2 * board.now.key.mark ≡ pass.old.me.0.word + 1) }
    requires next { new ≡ next_at board.now.key.capacity board.now.key.mark old }
    ensures { IsSameSeat pass.old pass.new × displaced old pass.old.me result pass.new.me }
{
    board.compare_exchange::<plays::Displace>(pass, HEAD, old, new)
}

/// The append that follows a displacement. It adds to the tail, and so keeps the mark of a close that came in between.
pub fn advance<T>(board: &Board<T>, pass: &mut Pass<T>, old: u64, new: u64) -> u64
    requires seat { IsSeatOf board.now pass.old }
    requires seen { (pass.old.me.0.stage ≡ Forcing) × (old ≡ pass.old.me.0.word) }
    requires next { new ≡ next_at board.now.key.capacity board.now.key.mark old }
    requires place { IsPlaceWord board.now.key.capacity board.now.key.mark old }
    ensures { IsSameSeat pass.old pass.new × advanced pass.old.me result pass.new.me }
{
    board.fetch_add::<plays::Advance>(pass, TAIL, new - old)
}

/// The close by a push of one item too many, where the tail is still `old`.
pub fn spend<T>(board: &Board<T>, pass: &mut Pass<T>, old: u64, new: u64) -> u64
    requires seat { IsSeatOf board.now pass.old }
    requires seen { (is_marked board.now.key.mark old ≡ false) × (new ≡ old + board.now.key.mark) }
    ensures { IsSameSeat pass.old pass.new × spent old pass.old.me result pass.new.me }
{
    board.compare_exchange::<plays::Spend>(pass, TAIL, old, new)
}

/// The close, which sets the mark whatever the tail is. It is the only step of its call.
pub fn close<T>(board: &Board<T>, pass: &mut Pass<T>, mark: u64) -> u64
    requires seat { IsSeatOf board.now pass.old }
    requires mark { mark ≡ board.now.key.mark }
    ensures { IsSameSeat pass.old pass.new × closed pass.old.me result pass.new.me }
{
    board.fetch_or::<plays::Shut>(pass, TAIL, mark)
}

/// Swaps the value into the place that was appended to, and gives the place back with its stamp.
#[inline(always)]
pub fn write<T>(
    board: &Board<T>,
    pass: &mut Pass<T>,
    index: usize,
    stamp: u64,
    value: T,
) -> Option<T>
    requires seat { IsSeatOf board.now pass.old }
    requires place { (index ≡ pass.old.me.0.place) × (index < board.now.key.capacity) × (stamp ≡ pass.old.me.0.word + 1) }
    requires seen { (pass.old.me.0.stage ≡ Writing) ⊎ (pass.old.me.0.stage ≡ Swapping) }
    requires held { (held : Option T) × (pass.old.me.1 ≡ (index, held) ∷ []) }
    ensures same { IsSameSeat pass.old pass.new }
    ensures held { pass.old.me.1 ≡ (index, result) ∷ [] }
    ensures gave { pass.new.me ≡ (doing Idle 0 0 0 0 pass.old.me.0.mark pass.old.me.0.closed (pass.old.me.0.found ++ stamp ∷ []), []) }
{
    let held = board.exchange(pass, index, Some(value));
    board.store::<plays::Give>(pass, index + STAMPS, stamp);
    held
}

/// Reads the item of the place that was taken, and gives the place back with its stamp.
#[inline(always)]
pub fn read<T>(board: &Board<T>, pass: &mut Pass<T>, index: usize, stamp: u64) -> T
    requires seat { IsSeatOf board.now pass.old }
    requires place { (index ≡ pass.old.me.0.place) × (index < board.now.key.capacity)
        × (stamp ≡ pass.old.me.0.word + 2 * board.now.key.mark) }
    requires seen { pass.old.me.0.stage ≡ Reading }
    requires held { (x : T) × (pass.old.me.1 ≡ (index, Some x) ∷ []) }
    ensures same { IsSameSeat pass.old pass.new }
    ensures gave { pass.new.me ≡ (doing Idle 0 0 0 0 pass.old.me.0.mark pass.old.me.0.closed (pass.old.me.0.found ++ stamp ∷ []), []) }
{
    let item = board.exchange(pass, index, None);
    board.store::<plays::Give>(pass, index + STAMPS, stamp);
    item.unwrap()
}
