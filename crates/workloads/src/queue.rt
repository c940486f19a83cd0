//! Work on a queue, by its shape.
mod hand_over;
mod one_thread;

use crate::work::{Shape, Way};
use crate::{Fault, Timing};
use concurrent_queue::{ConcurrentQueue, Exclusive, NoMemory};
use std::alloc::{AllocGlobal, Global};
use std::rt::Clock;
use std::sync::Wait;
use std::thread::Threads;

/// Does so many operations on a queue of one owner.
pub fn on_queue_of_one<R: AllocGlobal + Clock>(
    shape: Shape,
    rt: &R,
    ops: u64,
) -> Result<Timing, Fault> {
    one_thread::push_and_pop_alone(rt, queue_of_one(shape, rt.alloc())?, ops)
}

/// Does so many operations on a queue that threads share.
pub fn on_shared_queue<R: AllocGlobal + Clock + Wait + Threads + Sync>(
    shape: Shape,
    way: Way,
    rt: &R,
    ops: u64,
) -> Result<Timing, Fault> {
    on_queue(way, rt, &shared_queue(shape, rt.alloc())?, ops)
}

fn on_queue<R: AllocGlobal + Clock + Wait + Threads + Sync>(
    way: Way,
    rt: &R,
    queue: &ConcurrentQueue<u64>,
    ops: u64,
) -> Result<Timing, Fault> {
    match way {
        Way::PushAndPop => one_thread::push_and_pop(rt, queue, ops),
        Way::Burst => one_thread::bursts(rt, queue, ops),
        Way::Len => one_thread::len(rt, queue, ops),
        Way::OneToOne => hand_over::time(rt, queue, 1, ops),
        Way::TwoToTwo => hand_over::time(rt, queue, 2, ops),
    }
}

fn shared_queue(shape: Shape, alloc: Global) -> Result<ConcurrentQueue<u64>, NoMemory> {
    match shape.capacity() {
        Some(capacity) => ConcurrentQueue::bounded(alloc, capacity),
        None => Ok(ConcurrentQueue::unbounded(alloc)),
    }
}

fn queue_of_one(shape: Shape, alloc: Global) -> Result<Exclusive<u64>, NoMemory> {
    match shape.capacity() {
        Some(capacity) => Exclusive::bounded(alloc, capacity),
        None => Ok(Exclusive::unbounded(alloc)),
    }
}
