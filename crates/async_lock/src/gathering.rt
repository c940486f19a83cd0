//! The parties that have come to a barrier.
ghost use Rattle.async_lock.specs.Gatherings.{HasCome};
ghost use Rattle.async_lock.specs.Rounds.{HasLeft, HasLooked};
ghost use Rattle.std.specs.Prelude.{◌≡◌, ◌-◌, ◌≤◌, length, []};

use crate::round::{Ended, Round, Seat, Seen};
use std::alloc::Global;

/// The parties that have come to a barrier for this many, and wait for the others: never as many as there are parties. Each call
/// is one section of whoever locks it; only `come` takes memory.
#[derive(Drop)]
pub struct Gathering<K> {
    // How many have to wait before another party opens it.
    others: u64,
    round: Round<K>,
}

/// What a party finds that comes.
#[must_use]
pub enum Came<K> {
    /// It is the last: it opens the barrier, and all others have to be woken. The waker that it wanted to leave comes back.
    Opens(Ended<K>, Option<K>),
    /// It waits for the others.
    Waits(Seat),
    /// There is no memory for a place among the waiters. The waker that it wanted to leave comes back.
    NoMemory(Option<K>),
}

impl<K: Drop> Gathering<K> {
    /// Nobody has come yet of this many. Takes no memory.
    pub fn new(alloc: Global, parties: u64) -> Self
        ensures others { result.others ≡ parties - 1 }
        ensures nobody { result.round.waiters.waiting ≡ [] }
    {
        Gathering {
            others: parties.saturating_sub(1),
            round: Round::new(alloc),
        }
    }

    /// Takes one party: the last of all opens the barrier, and any other waits and leaves this waker.
    pub fn come(&mut self, waker: Option<K>) -> Came<K>
        ensures came { HasCome waker self.old.others self.old.round self.new.round result }
        ensures others { self.new.others ≡ self.old.others }
    {
        if self.round.len() as u64 >= self.others {
            return Came::Opens(self.round.end(), waker);
        }
        match self.round.sit(waker) {
            Ok(seat) => Came::Waits(seat),
            Err(waker) => Came::NoMemory(waker),
        }
    }

    /// Whether the barrier was opened since it came. Else it leaves this waker in the place of the one before.
    pub fn look(&mut self, seat: Seat, waker: Option<K>) -> Seen<K>
        ensures seen { HasLooked seat self.old.round.number waker self.old.round.waiters self.new.round.waiters result }
        ensures stays { (self.new.others ≡ self.old.others) × (self.new.round.number ≡ self.old.round.number) }
    {
        self.round.look(seat, waker)
    }

    /// Leaves as if it had never come, where the barrier wasn't opened since. Answers its waker, to be dropped once the lock is
    /// released.
    pub fn leave(&mut self, seat: Seat) -> Option<K>
        ensures left { HasLeft seat self.old.round.number self.old.round.waiters self.new.round.waiters result }
        ensures stays { (self.new.others ≡ self.old.others) × (self.new.round.number ≡ self.old.round.number) }
    {
        self.round.leave(seat)
    }
}
