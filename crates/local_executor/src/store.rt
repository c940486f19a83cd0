//! The futures of an executor, on its thread. An `Unlocked` is lent to whoever looks at them for as long, so no code of a user
//! runs while they are open.
use crate::entry::Unlocked;
use crate::link::Link;
use crate::locks::Locked;
use crate::names::{Futures, Tasks};
use executor_parts::Places;
use std::alloc::{AllocError, Global};
use std::cell::{RefCell, RefMut};
use std::sync::Wait;

/// Keeps the futures of an executor.
#[derive(Drop)]
pub struct Store<F, T> {
    futures: RefCell<Futures<F, T>>,
}

/// The futures of a store, which is open until this is dropped.
pub struct Opened<'a, F: Drop, T: Drop> {
    futures: RefMut<'a, Futures<F, T>>,
    unlocked: &'a mut Unlocked,
}

/// The futures of a store, which is open until this is dropped, and the state under the lock, which is held as long.
pub struct Both<'a, F: Drop, T: Drop, W> {
    pub futures: RefMut<'a, Futures<F, T>>,
    pub locked: Locked<'a, Tasks<W>>,
}

impl<F: Drop, T: Drop> Store<F, T> {
    /// Makes a store with room for this many futures.
    pub fn new(alloc: Global, limit: usize) -> Result<Self, AllocError> {
        match Places::with_room(alloc, limit) {
            Ok(futures) => Ok(Store {
                futures: RefCell::new(futures),
            }),
            Err(error) => Err(error),
        }
    }

    /// Opens it. It is closed whenever an `Unlocked` can be lent: if it were open this would wait.
    #[inline(always)]
    fn borrow<R: Wait>(&self, rt: &R) -> RefMut<'_, Futures<F, T>> {
        for _ in rt.forever() {
            if let Ok(futures) = self.futures.try_borrow_mut() {
                return futures;
            }
        }
        unreachable!()
    }

    /// Opens it, until what it answers is dropped. It takes no memory.
    #[inline(always)]
    pub fn open<'a, R: Wait>(&'a self, rt: &R, unlocked: &'a mut Unlocked) -> Opened<'a, F, T> {
        Opened {
            futures: self.borrow(rt),
            unlocked,
        }
    }

    /// The same, with the lock taken.
    pub fn open_with<'a, W: Drop, R: Wait + Copy + Drop>(
        &'a self,
        link: &'a Link<W, R>,
        unlocked: &'a mut Unlocked,
    ) -> Both<'a, F, T, W> {
        Both {
            futures: self.borrow(&link.rt()),
            locked: link.lock(unlocked),
        }
    }

    /// The futures, which nobody else has any more.
    pub fn into_futures(self) -> Futures<F, T> {
        let Store { futures } = self;
        futures.into_inner()
    }
}

impl<F: Drop, T: Drop> Opened<'_, F, T> {
    /// The futures.
    #[inline(always)]
    pub fn get(&mut self) -> &mut Futures<F, T> {
        &mut *self.futures
    }
}

impl<F: Drop, T: Drop> Drop for Opened<'_, F, T> {
    /// Closes the store.
    #[inline(always)]
    fn drop(self) {
        let Opened {
            futures,
            unlocked: _,
        } = self;
        drop(futures);
    }
}

impl<F: Drop, T: Drop, W> Drop for Both<'_, F, T, W> {
    /// Closes the store, and releases the lock.
    fn drop(self) {
        let Both { futures, locked } = self;
        drop(futures);
        drop(locked);
    }
}
