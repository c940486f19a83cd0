//! Queues of items that have no drop, each taken apart by its owner. That an empty `Exclusive` ends its contract says.
use crate::words::{queue_of, same};
use concurrent_queue::{ConcurrentQueue, Remains};
use std::process::Abort;
use std::sync::Wait;

// An item that can't be dropped, only taken apart.
struct Held {
    number: u64,
}

fn push<R: Wait + Abort>(rt: &R, queue: &ConcurrentQueue<Held>, number: u64) {
    if let Err(refused) = queue.push(rt, Held { number }) {
        let Held { number: _ } = refused.into_inner();
        same(rt, "pushed", "refused");
    }
}

// Takes out what is left, which are the numbers from this one on, ends it, and answers how much it was.
fn end<R: Abort>(rt: &R, mut left: Remains<Held>, first: u64) -> u64 {
    let mut count = 0u64;
    while let Some(Held { number }) = left.next() {
        same(rt, number, first.wrapping_add(count));
        count = count.wrapping_add(1);
    }
    left.destroy_empty();
    count
}

// A queue that has given its first item is taken apart while it holds as many as it may, and at least one.
fn taken_apart<R: Wait + Abort>(rt: &R, queue: ConcurrentQueue<Held>, held: u64) {
    for number in 0..held {
        push(rt, &queue, number);
    }
    if let Ok(Held { number }) = queue.pop(rt) {
        same(rt, number, 0);
        push(rt, &queue, held);
    }
    same(rt, end(rt, queue.take_apart(), 1), held);
}

#[test]
fn a_shared_queue_taken_apart_gives_its_items_in_order(rt: HostRuntime) {
    for (capacity, held) in [(1, 1), (2, 2), (3, 3), (8, 8), (4, 0), (0, 40), (0, 0)] {
        taken_apart(&rt, queue_of(&rt, capacity), held);
    }
}

#[test]
fn what_is_left_is_dropped(rt: HostRuntime) {
    let queue = queue_of(&rt, 4);
    same(&rt, queue.push(&rt, 1), Ok(()));
    drop(queue.take_apart());
}
