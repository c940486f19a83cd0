//! The locks of an executor. An `Unlocked` is lent to the holder of one for as long as it is taken.
use crate::entry::Unlocked;
use crossbeam_utils::CachePadded;
use std::sync::{Mutex, MutexGuard, RwLock, RwLockReadGuard, RwLockWriteGuard, Wait};

/// A value behind a lock that one party has at a time. It has its cache lines to itself.
#[derive(Drop)]
pub struct Guarded<T> {
    lock: CachePadded<Mutex<T>>,
}

/// The value of a `Guarded`, until this is dropped.
pub struct Locked<'a, T> {
    guard: MutexGuard<'a, T>,
    unlocked: &'a mut Unlocked,
}

impl<T> Guarded<T> {
    pub fn new(value: T) -> Self {
        Guarded {
            lock: CachePadded::new(Mutex::new(value)),
        }
    }

    /// Takes the lock. It tries first, which doesn't wait.
    #[inline(always)]
    pub fn lock<'a, R: Wait>(&'a self, rt: &R, unlocked: &'a mut Unlocked) -> Locked<'a, T> {
        let guard = match self.lock.try_lock() {
            Some(guard) => guard,
            None => self.lock.lock(rt),
        };
        Locked { guard, unlocked }
    }

    /// Takes the lock, where it is free.
    pub fn try_lock<'a>(&'a self, unlocked: &'a mut Unlocked) -> Option<Locked<'a, T>> {
        match self.lock.try_lock() {
            Some(guard) => Some(Locked { guard, unlocked }),
            None => None,
        }
    }

    /// The value, which nobody else has any more.
    pub fn into_inner(self) -> T {
        let Guarded { lock } = self;
        lock.into_inner().into_inner()
    }
}

impl<T> Locked<'_, T> {
    /// The value that the lock guards.
    #[inline(always)]
    pub fn get(&mut self) -> &mut T {
        &mut *self.guard
    }
}

impl<T> Drop for Locked<'_, T> {
    /// Releases the lock.
    #[inline(always)]
    fn drop(self) {
        let Locked { guard, unlocked: _ } = self;
        drop(guard);
    }
}

/// A value behind a lock that many parties may have to read, or one to write.
#[derive(Drop)]
pub struct ReadWrite<T> {
    lock: RwLock<T>,
}

/// The value of a `ReadWrite`, to be read, until this is dropped.
pub struct Reading<'a, T> {
    guard: RwLockReadGuard<'a, T>,
    unlocked: &'a mut Unlocked,
}

/// The value of a `ReadWrite`, to be written, until this is dropped.
pub struct Writing<'a, T> {
    guard: RwLockWriteGuard<'a, T>,
    unlocked: &'a mut Unlocked,
}

impl<T> ReadWrite<T> {
    pub fn new(value: T) -> Self {
        ReadWrite {
            lock: RwLock::new(value),
        }
    }

    /// Takes the lock to read.
    pub fn read<'a, R: Wait>(&'a self, rt: &R, unlocked: &'a mut Unlocked) -> Reading<'a, T> {
        Reading {
            guard: self.lock.read(rt),
            unlocked,
        }
    }

    /// Takes the lock to read, where no party has it to write.
    pub fn try_read<'a>(&'a self, unlocked: &'a mut Unlocked) -> Option<Reading<'a, T>> {
        match self.lock.try_read() {
            Some(guard) => Some(Reading { guard, unlocked }),
            None => None,
        }
    }

    /// Takes the lock to write.
    pub fn write<'a, R: Wait>(&'a self, rt: &R, unlocked: &'a mut Unlocked) -> Writing<'a, T> {
        Writing {
            guard: self.lock.write(rt),
            unlocked,
        }
    }
}

impl<T> Reading<'_, T> {
    /// The value that the lock guards.
    pub fn get(&self) -> &T {
        &*self.guard
    }
}

impl<T> Drop for Reading<'_, T> {
    /// Releases the lock.
    fn drop(self) {
        let Reading { guard, unlocked: _ } = self;
        drop(guard);
    }
}

impl<T> Writing<'_, T> {
    /// The value that the lock guards.
    pub fn get(&mut self) -> &mut T {
        &mut *self.guard
    }
}

impl<T> Drop for Writing<'_, T> {
    /// Releases the lock.
    fn drop(self) {
        let Writing { guard, unlocked: _ } = self;
        drop(guard);
    }
}
