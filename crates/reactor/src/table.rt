//! The sources of a reactor, behind their lock.
ghost use Rattle.std.specs.Prelude.{◌≡◌};

use crate::lane::Lanes;
use crate::parts::Sources;
use std::alloc::Global;
use std::sync::{Arc, Mutex, MutexGuard, Wait};

/// The sources that a reactor has. Contracts don't see through a lock, so the table has a name, by which they tell one from
/// another.
#[derive(Drop)]
pub struct Table<K: Drop> {
    name: u8,
    sources: Mutex<Sources<Arc<Lanes<K>>>>,
}

impl<K: Drop> Table<K> {
    /// A table of its own, with no sources. The clause says nothing of its name, so no two can be shown to be the same.
    pub fn new(alloc: Global) -> Self
        ensures { result ≡ result }
    {
        Table {
            name: 0,
            sources: Mutex::new(Sources::new(alloc)),
        }
    }

    /// Takes the lock.
    pub fn lock<R: Wait>(&self, rt: &R) -> MutexGuard<'_, Sources<Arc<Lanes<K>>>> {
        self.sources.lock(rt)
    }
}
