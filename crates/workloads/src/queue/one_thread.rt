//! Work on queues in one thread.
use crate::{Fault, Timing};
use concurrent_queue::{ConcurrentQueue, Exclusive};
use std::rt::Clock;
use std::sync::Wait;
use std::time::Instant;

/// How many numbers a burst pushes before it pops.
const BURST: u64 = 1024;

/// Pushes and pops the numbers below `ops`, one by one.
pub fn push_and_pop<R: Clock + Wait>(
    rt: &R,
    queue: &ConcurrentQueue<u64>,
    ops: u64,
) -> Result<Timing, Fault> {
    let mut moved = 0u64;
    let start = Instant::now(rt)?;
    for number in 0..ops {
        queue.push(rt, number)?;
        moved = moved.wrapping_add(queue.pop(rt)?);
    }
    Timing::since(rt, start, moved)
}

/// The same on a queue of one owner.
pub fn push_and_pop_alone<R: Clock>(
    rt: &R,
    mut queue: Exclusive<u64>,
    ops: u64,
) -> Result<Timing, Fault> {
    let mut moved = 0u64;
    let start = Instant::now(rt)?;
    for number in 0..ops {
        queue.push(number)?;
        moved = moved.wrapping_add(queue.pop()?);
    }
    Timing::since(rt, start, moved)
}

/// Pushes the numbers below `ops` in bursts, and pops each burst until the queue is empty. Where a burst fills the
/// queue, one more push is refused.
pub fn bursts<R: Clock + Wait>(
    rt: &R,
    queue: &ConcurrentQueue<u64>,
    ops: u64,
) -> Result<Timing, Fault> {
    let (mut next, mut moved) = (0u64, 0u64);
    let start = Instant::now(rt)?;
    for _ in 0..ops.div_ceil(BURST) {
        let last = next.saturating_add(BURST).min(ops);
        for number in next..last {
            queue.push(rt, number)?;
        }
        if queue.capacity().is_some() && queue.is_full(rt) && queue.push(rt, 0).is_ok() {
            return Err(Fault::Refused);
        }
        moved = moved.wrapping_add(drained(rt, queue));
        next = last;
    }
    Timing::since(rt, start, moved)
}

// Pops until the queue is empty, and answers the sum of what was popped.
fn drained<R: Wait>(rt: &R, queue: &ConcurrentQueue<u64>) -> u64 {
    let mut moved = 0u64;
    for _ in rt.forever() {
        match queue.pop(rt) {
            Ok(number) => moved = moved.wrapping_add(number),
            Err(_) => break,
        }
    }
    moved
}

/// Asks a queue that holds five items for its length, so many times.
pub fn len<R: Clock + Wait>(
    rt: &R,
    queue: &ConcurrentQueue<u64>,
    ops: u64,
) -> Result<Timing, Fault> {
    for number in 0..5 {
        queue.push(rt, number)?;
    }
    let mut moved = 0u64;
    let start = Instant::now(rt)?;
    for _ in 0..ops {
        moved = moved.wrapping_add(queue.len(rt) as u64);
    }
    Timing::since(rt, start, moved)
}
