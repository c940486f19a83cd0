ghost use Rattle.std.specs.Prelude.{◌≡◌};

use crate::guarded::Guarded;
use crate::room::{Held, Promise, Room};
use async_task::Wake;
use std::sync::{Arc, Wait};

/// Has the value of a mutex. Its drop gives the value back: it is promised to the waiter that has waited longest, or free.
pub struct MutexGuard<T: Drop, K: Wake + Drop, R: Wait + Copy + Drop> {
    held: Held<T>,
    room: Arc<Guarded<Room<T, K>>>,
    rt: R,
}

impl<T: Drop, K: Wake + Drop, R: Wait + Copy + Drop> MutexGuard<T, K, R> {
    pub(crate) fn new(rt: R, room: Arc<Guarded<Room<T, K>>>, held: Held<T>) -> Self
        ensures room { result.room ≡ room }
        ensures held { result.held ≡ held }
    {
        MutexGuard { held, room, rt }
    }

    /// The value. Takes no memory.
    pub fn get(&self) -> &T
        ensures { result.now ≡ self.now.held.value }
    {
        self.held.get()
    }

    /// The value, to write to. Takes no memory.
    pub fn get_mut(&mut self) -> &mut T
        ensures { result.now ≡ self.old.held.value }
    {
        self.held.get_mut()
    }
}

impl<T: Drop, K: Wake + Drop, R: Wait + Copy + Drop> Drop for MutexGuard<T, K, R> {
    fn drop(self) {
        let MutexGuard { held, room, rt } = self;
        let given = room.lock(&rt).give_back(held);
        wake_next(given);
    }
}

/// Wakes the waiter to whom a value was promised that came back.
pub fn wake_next<T: Drop, K: Wake>(given: Result<Promise<K>, T>) {
    match given {
        Ok(promise) => promise.wake(),
        Err(other) => drop(other),
    }
}
