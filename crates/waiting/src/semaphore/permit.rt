ghost use Rattle.std.specs.Prelude.{◌≡◌};

use crate::permits::Held;
use crate::semaphore::Semaphore;
use async_task::Wake;
use std::sync::Wait;

/// A permit of a semaphore. Its drop gives the permit back: it is promised to the waiter that has waited longest, or free.
pub struct Permit<K: Wake + Drop, R: Wait + Copy + Drop> {
    semaphore: Semaphore<K, R>,
    held: Held,
}

impl<K: Wake + Drop, R: Wait + Copy + Drop> Permit<K, R> {
    pub(crate) fn new(semaphore: Semaphore<K, R>, held: Held) -> Self
        ensures { result.semaphore ≡ semaphore }
    {
        Permit { semaphore, held }
    }

    /// Takes the permit out for good: the semaphore has one permit less. It takes no memory.
    pub fn forget(self) {
        let Permit { semaphore, held } = self;
        semaphore.forget(held);
    }
}

impl<K: Wake + Drop, R: Wait + Copy + Drop> Drop for Permit<K, R> {
    fn drop(self) {
        let Permit { semaphore, held } = self;
        semaphore.give_back(held);
    }
}
