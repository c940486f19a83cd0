//! What steps of this machine cost, to read the other lines by.
use crate::{Fault, Timing};
use std::rt::Clock;
use std::sync::atomic::{AtomicU64, Ordering};
use std::sync::{Mutex, Wait};
use std::time::Instant;

/// Adds one to an atomic word, so many times.
pub fn fetch_add<R: Clock>(rt: &R, ops: u64) -> Result<Timing, Fault> {
    let word = AtomicU64::new(0);
    let start = Instant::now(rt)?;
    for _ in 0..ops {
        word.fetch_add(1, Ordering::SeqCst);
    }
    Timing::since(rt, start, word.load(Ordering::SeqCst))
}

/// Takes a lock, adds one to what it guards, and gives it back, so many times.
pub fn mutex_lock<R: Clock + Wait>(rt: &R, ops: u64) -> Result<Timing, Fault> {
    let lock = Mutex::new(0u64);
    let start = Instant::now(rt)?;
    for _ in 0..ops {
        let mut count = lock.lock(rt);
        *count = count.wrapping_add(1);
    }
    let moved = *lock.lock(rt);
    Timing::since(rt, start, moved)
}
