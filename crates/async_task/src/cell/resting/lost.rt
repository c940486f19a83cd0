use crate::cell::resting::{Parked, Rested, Stored};
use crate::realm::Vacant;
use std::alloc::{AllocError, Global};
use std::sync::atomic::AtomicU64;
use std::sync::atomic::Ordering::SeqCst;

/// What the Runnable is in a count: its lowest bit.
const RUNNABLE: u64 = 1;

/// What the handle is: the second.
const HANDLE: u64 = 2;

/// What each waker is: the bits above have how many there are.
const WAKER: u64 = 4;

/// Something that rests in a cell.
pub enum Thing {
    Runnable(Rested),
    Waker(Stored),
    Handle(Parked),
}

/// What was let go of all that rests in one cell, in one count: at most one Runnable and one handle, and wakers.
#[derive(Drop)]
pub struct Lost {
    counts: AtomicU64,
}

/// All that was let go of one cell up to a moment. It has no drop: one thing after the other is taken out.
pub struct Lot {
    counts: u64,
}

impl Lost {
    /// Nothing was let go.
    pub fn new() -> Self {
        Lost {
            counts: AtomicU64::new(0),
        }
    }

    /// One thing more. Whether it is the first.
    pub fn keep(&self, thing: Thing) -> bool {
        let one = match thing {
            Thing::Runnable(Rested(())) => RUNNABLE,
            Thing::Handle(Parked(())) => HANDLE,
            Thing::Waker(Stored(())) => WAKER,
        };
        self.counts.fetch_add(one, SeqCst) == 0
    }

    /// All that is there comes out.
    pub fn take(&self) -> Lot {
        Lot {
            counts: self.counts.swap(0, SeqCst),
        }
    }
}

impl Vacant for Lost {
    fn vacant(_alloc: Global) -> Result<Self, AllocError> {
        Ok(Lost::new())
    }
}

impl Lot {
    /// One thing, and what is left.
    pub fn next(self) -> Option<(Thing, Lot)> {
        let Lot { counts } = self;
        if counts & RUNNABLE != 0 {
            let counts = counts ^ RUNNABLE;
            return Some((Thing::Runnable(Rested(())), Lot { counts }));
        }
        if counts & HANDLE != 0 {
            let counts = counts ^ HANDLE;
            return Some((Thing::Handle(Parked(())), Lot { counts }));
        }
        match counts.checked_sub(WAKER) {
            Some(counts) => Some((Thing::Waker(Stored(())), Lot { counts })),
            None => None,
        }
    }
}
