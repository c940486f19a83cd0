//! A future whose polls and drops are counted.
use async_task::{Future, Poll};
use std::alloc::{AllocError, Global};
use std::sync::atomic::AtomicU64;
use std::sync::atomic::Ordering::SeqCst;

/// How often futures were polled, and how many were dropped.
#[derive(Default, Drop)]
pub struct Counts {
    polls: AtomicU64,
    drops: AtomicU64,
}

impl Counts {
    /// For the rest of the program.
    pub fn leak(alloc: Global) -> Result<&'static Self, AllocError> {
        match Box::new(alloc, Counts::default()) {
            Ok(counts) => Ok(Box::leak(counts)),
            Err(refused) => Err(refused.into()),
        }
    }

    /// Whether so many polls and drops were counted.
    pub fn are(&self, polls: u64, drops: u64) -> bool {
        (self.polls.load(SeqCst) == polls) & (self.drops.load(SeqCst) == drops)
    }
}

/// Gives its number at its first poll.
pub struct Counted {
    pub number: u64,
    pub counts: &'static Counts,
}

impl Drop for Counted {
    fn drop(self) {
        let Counted { number: _, counts } = self;
        counts.drops.fetch_add(1, SeqCst);
    }
}

impl<K> Future<K> for Counted {
    type Output = u64;

    fn poll(&mut self, _waker: &K) -> Poll<u64> {
        self.counts.polls.fetch_add(1, SeqCst);
        Poll::Ready(self.number)
    }
}
