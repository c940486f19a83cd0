ghost use Rattle.async_lock.specs.Newest.{IsPast};

use crate::guarded::Guarded;
use crate::round::Seat;
use crate::watch::latest::{Latest, Noticed};
use async_task::Wake;
use std::alloc::Global;
use std::sync::atomic::AtomicU64;
use std::sync::{Arc, Wait};

/// What senders and receivers share.
#[derive(Drop)]
pub struct Shared<T: Drop, K: Wake + Drop> {
    latest: Guarded<Latest<T, K>>,
    /// How many senders there are.
    pub senders: AtomicU64,
}

impl<T: Drop, K: Wake + Drop> Shared<T, K> {
    /// Makes it with one sender, and no value yet.
    pub fn new(alloc: Global) -> Self {
        Shared {
            latest: Guarded::new(Latest::new(alloc)),
            senders: AtomicU64::new(1),
        }
    }

    /// Puts the first value in.
    pub fn begin<R: Wait>(&self, rt: &R, first: Arc<T>) {
        let before = self.latest.lock(rt).begin(first);
        drop(before);
    }

    /// Puts a value in the place of the newest, drops the older one, and wakes all waiters.
    pub fn put<R: Wait>(&self, rt: &R, value: Arc<T>) {
        let (before, all) = self.latest.lock(rt).put(value);
        all.wake_all();
        drop(before);
    }

    /// Closes it: no value comes any more. Wakes all waiters.
    pub fn close<R: Wait>(&self, rt: &R) {
        let ended = self.latest.lock(rt).close();
        ended.wake_all();
    }

    /// The newest value, and its version.
    pub fn newest<R: Wait>(&self, rt: &R) -> Option<(Arc<T>, u64)> {
        self.latest.lock(rt).newest()
    }

    /// The version of the newest value.
    pub fn version<R: Wait>(&self, rt: &R) -> u64 {
        self.latest.lock(rt).version()
    }

    /// What a waiter for a change finds.
    pub fn look<R: Wait>(
        &self,
        rt: &R,
        seen: u64,
        seat: Option<Seat>,
        waker: Option<K>,
    ) -> Noticed<K>
        ensures { IsPast seen result }
    {
        self.latest.lock(rt).look(seen, seat, waker)
    }

    /// Waits no more, if it waited.
    pub fn leave<R: Wait>(&self, rt: &R, seat: Option<Seat>) {
        if let Some(seat) = seat {
            let waker = self.latest.lock(rt).leave(Some(seat));
            drop(waker);
        }
    }
}
