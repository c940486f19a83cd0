//! A value behind a lock, under a name.
ghost use Rattle.std.specs.Prelude.{◌≡◌};

use std::sync::{Mutex, MutexGuard, Wait};

/// The value that a lock guards. Contracts don't see through a lock, so the value has a name, by which they tell one such place
/// from another.
#[derive(Drop)]
pub struct Guarded<X> {
    name: u8,
    lock: Mutex<X>,
}

impl<X> Guarded<X> {
    /// A place of its own. The clause says nothing of its name, so no two places can be shown to be the same.
    pub fn new(value: X) -> Self
        ensures { result ≡ result }
    {
        Guarded {
            name: 0,
            lock: Mutex::new(value),
        }
    }

    /// Takes the lock.
    pub fn lock<R: Wait>(&self, rt: &R) -> MutexGuard<'_, X> {
        self.lock.lock(rt)
    }

    /// The value, for a caller that alone has it.
    pub fn get_mut(&mut self) -> &mut X {
        self.lock.get_mut()
    }

    /// The value that it guarded.
    pub fn into_inner(self) -> X {
        let Guarded { name: _, lock } = self;
        lock.into_inner()
    }
}
