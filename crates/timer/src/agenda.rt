ghost use Rattle.std.specs.Prelude.{◌≡◌, ◌<◌, ◌≤◌, ◌∷◌, [], IfOk, IsTrue, ◌↔◌, ℕ, slice_index, slice_set, length};
ghost use Rattle.timer.specs.Tree.{IsTree};

use crate::tree::{first_leaf, set_leaf};
use std::alloc::{AllocError, Global};

/// The time of a place at which nobody sleeps: later than any that a duration can express.
const NEVER: u128 = u128::MAX;

/// When each sleeper is due, in nanoseconds, by the place at which it sleeps. A change takes a time that grows with the logarithm
/// of the room. Only `with_room` takes memory.
#[derive(Drop)]
pub struct Agenda {
    room: usize,
    nodes: Vec<u128>,
    ghost some: { 0 < room },
    ghost tree: { IsTree room nodes.items },
}

/// Whose turn it is.
pub enum Turn {
    /// The turn of the sleeper at this place, which is due and was removed.
    Of(usize),
    /// Nobody's turn before this many nanoseconds have passed.
    In(u128),
    /// Nobody sleeps.
    Nobodys,
}

impl Agenda {
    ghost use Rattle.timer.specs.Order.{IsKnown, TimeGoes, Turns, entries, never, time_of, times};

    /// Makes an agenda with this many places, and with one at least.
    pub fn with_room(alloc: Global, places: usize) -> Result<Self, AllocError>
        ensures nobody { IfOk result (λ agenda. entries agenda ≡ []) }
        ensures times { IfOk result (λ agenda. (place : ℕ) → never ≤ time_of (times agenda) place) }
        ensures room { IfOk result (λ agenda. places ≤ agenda.room) }
    {
        let room = places.max(1);
        let Some(len) = room.checked_mul(2) else {
            return Err(AllocError);
        };
        let nodes = vec![in alloc; NEVER; len]?;
        Ok(Agenda { room, nodes })
    }

    /// Sets the time at which the sleeper at this place is due.
    pub fn set(&mut self, place: usize, due: u128)
        requires { place < self.old.room }
        ensures times { times self.new ≡ slice_set (times self.old) place due }
        ensures room { self.new.room ≡ self.old.room }
    {
        set_leaf(self.nodes.as_mut_slice(), self.room, place, due);
    }

    /// Removes the sleeper at this place.
    pub fn forget(&mut self, place: usize)
        ensures times { times self.new ≡ slice_set (times self.old) place never }
        ensures room { self.new.room ≡ self.old.room }
    {
        if place < self.room {
            self.set(place, NEVER);
        }
    }

    /// Whether nobody sleeps.
    pub fn is_empty(&self) -> bool
        ensures { IsTrue result ↔ (entries self.now ≡ []) }
    {
        self.nodes[1] >= NEVER
    }

    /// Removes the first sleeper, where it is due by now.
    pub fn turn(&mut self, now: u128) -> Turn
        ensures turns { Turns now (entries self.old) (entries self.new) result }
        ensures times { TimeGoes (times self.old) (times self.new) result }
        ensures known { IsKnown now result }
        ensures room { self.new.room ≡ self.old.room }
    {
        let due = self.nodes[1];
        if due >= NEVER {
            return Turn::Nobodys;
        }
        if now < due {
            return Turn::In(due - now);
        }
        let place = first_leaf(self.nodes.as_slice(), self.room);
        self.set(place, NEVER);
        Turn::Of(place)
    }
}
