//! The two ways of a source, each behind a lock.
ghost use Rattle.std.specs.Prelude.{◌≡◌};

use crate::parts::Side;
use crate::poller::Way;
use std::sync::{Mutex, MutexGuard, Wait};

/// One way of a source. Contracts don't see through a lock, so which way it guards stands beside it.
#[derive(Drop)]
pub struct Lane<K: Drop> {
    way: Way,
    side: Mutex<Side<K>>,
}

/// Both ways of a source.
#[derive(Drop)]
pub struct Lanes<K: Drop> {
    read: Lane<K>,
    write: Lane<K>,
}

impl<K: Drop> Lane<K> {
    fn new(way: Way) -> Self
        ensures { result.way ≡ way }
    {
        Lane {
            way,
            side: Mutex::new(Side::new()),
        }
    }

    /// Takes the lock.
    pub fn lock<R: Wait>(&self, rt: &R) -> MutexGuard<'_, Side<K>> {
        self.side.lock(rt)
    }
}

impl<K: Drop> Lanes<K> {
    ghost use Rattle.reactor.specs.Lanes.{lane_of};
    ghost use Rattle.reactor.specs.declared.poller.Way.TheVariants.{Read, Write};

    /// Makes both ways, which are ready.
    pub fn new() -> Self
        ensures read { result.read.way ≡ Read }
        ensures write { result.write.way ≡ Write }
    {
        Lanes {
            read: Lane::new(Way::Read),
            write: Lane::new(Way::Write),
        }
    }

    /// The lane of this way.
    pub fn of(&self, way: Way) -> &Lane<K>
        ensures { result.now ≡ lane_of way self.now }
    {
        match way {
            Way::Read => &self.read,
            Way::Write => &self.write,
        }
    }
}
