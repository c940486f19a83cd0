//! The seats of a bridge, behind their lock.
ghost use Rattle.std.specs.Prelude.{◌≡◌};

use crate::parts::Seats;
use std::alloc::Global;
use std::sync::{Mutex, MutexGuard, Wait};

/// The seats that a bridge has. Contracts don't see through a lock, so the table has a name, by which they tell one from another.
#[derive(Drop)]
pub struct Table<K: Drop> {
    name: u8,
    seats: Mutex<Seats<K>>,
}

impl<K: Drop> Table<K> {
    /// A table of its own, with no seats. The clause says nothing of its name, so no two can be shown to be the same.
    pub fn new(alloc: Global) -> Self
        ensures { result ≡ result }
    {
        Table {
            name: 0,
            seats: Mutex::new(Seats::new(alloc)),
        }
    }

    /// Takes the lock.
    pub fn lock<R: Wait>(&self, rt: &R) -> MutexGuard<'_, Seats<K>> {
        self.seats.lock(rt)
    }
}
