//! The lock that an executor, its handles and its wakers share. An `Unlocked` is lent to its holder for as long as it is taken.
use crate::entry::Unlocked;
use std::sync::{Mutex, MutexGuard, Wait};

/// A value behind a lock that one party has at a time.
#[derive(Drop)]
pub struct Guarded<T> {
    lock: Mutex<T>,
}

/// The value of a `Guarded`, until this is dropped.
pub struct Locked<'a, T> {
    guard: MutexGuard<'a, T>,
    unlocked: &'a mut Unlocked,
}

impl<T> Guarded<T> {
    pub fn new(value: T) -> Self {
        Guarded {
            lock: Mutex::new(value),
        }
    }

    /// Takes the lock. It is tried here first, as it is free unless another thread has it.
    #[inline(always)]
    pub fn lock<'a, R: Wait>(&'a self, rt: &R, unlocked: &'a mut Unlocked) -> Locked<'a, T> {
        let guard = match self.lock.try_lock() {
            Some(guard) => guard,
            None => self.lock.lock(rt),
        };
        Locked { guard, unlocked }
    }

    /// Takes the lock, where it is free.
    pub fn try_lock<'a>(&'a self, unlocked: &'a mut Unlocked) -> Option<Locked<'a, T>> {
        match self.lock.try_lock() {
            Some(guard) => Some(Locked { guard, unlocked }),
            None => None,
        }
    }
}

impl<T> Locked<'_, T> {
    /// The value that the lock guards.
    #[inline(always)]
    pub fn get(&mut self) -> &mut T {
        &mut *self.guard
    }
}

impl<T> Drop for Locked<'_, T> {
    /// Releases the lock.
    #[inline(always)]
    fn drop(self) {
        let Locked { guard, unlocked: _ } = self;
        drop(guard);
    }
}
