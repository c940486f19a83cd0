//! Numbers that go from thread to thread through a queue. A thread that finds the queue full or empty lets others run.
ghost use Rattle.std.specs.Prelude.{◌<◌};

use crate::{Fault, Timing, share};
use concurrent_queue::{ConcurrentQueue, PopError, PushError};
use std::alloc::AllocGlobal;
use std::rt::Clock;
use std::sync::Wait;
use std::thread::{self, Threads};
use std::time::Instant;

/// Hands over so many numbers from `pairs` threads to as many others, and answers the sum of what came.
pub fn time<R: AllocGlobal + Clock + Wait + Threads + Sync>(
    rt: &R,
    queue: &ConcurrentQueue<u64>,
    pairs: usize,
    ops: u64,
) -> Result<Timing, Fault>
    requires { (0 < pairs) × (pairs < 1000) }
{
    let start = Instant::now(rt)?;
    let sums = thread::map_indices(
        rt,
        rt.alloc(),
        2 * pairs,
        &|party| { push_or_pop_share(rt, queue, pairs, party, ops) },
    )?;
    let mut moved = 0u64;
    for sum in &sums {
        moved = moved.wrapping_add(*sum);
    }
    if queue.is_closed(rt) {
        return Err(Fault::NoMemory);
    }
    Timing::since(rt, start, moved)
}

// The first half of the parties push their shares, and the others pop as much.
fn push_or_pop_share<R: Wait>(
    rt: &R,
    queue: &ConcurrentQueue<u64>,
    pairs: usize,
    party: usize,
    ops: u64,
) -> u64
    requires { 0 < pairs }
{
    if party < pairs {
        push_share(rt, queue, share(ops, pairs as u64, party as u64));
        0
    } else {
        pop_share(rt, queue, share(ops, pairs as u64, (party - pairs) as u64))
    }
}

// Pushes the numbers below `count`. Where there is no memory for one it closes the queue, so that nobody waits for it.
fn push_share<R: Wait>(rt: &R, queue: &ConcurrentQueue<u64>, count: u64) {
    for number in 0..count {
        for _ in rt.forever() {
            match queue.push(rt, number) {
                Ok(()) => break,
                Err(PushError::Full(_)) => thread::yield_now(),
                Err(_) => {
                    queue.close(rt);
                    return;
                }
            }
        }
    }
}

// Pops so many numbers, or until the queue is closed, and answers their sum.
fn pop_share<R: Wait>(rt: &R, queue: &ConcurrentQueue<u64>, count: u64) -> u64 {
    let mut moved = 0u64;
    for _ in 0..count {
        for _ in rt.forever() {
            match queue.pop(rt) {
                Ok(number) => {
                    moved = moved.wrapping_add(number);
                    break;
                }
                Err(PopError::Empty) => thread::yield_now(),
                Err(PopError::Closed) => return moved,
            }
        }
    }
    moved
}
