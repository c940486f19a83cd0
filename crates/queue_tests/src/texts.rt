//! `ConcurrentQueue` called by one thread: what is printed, and what a script can't say of walks, items and places.
ghost use Rattle.std.specs.Prelude.{◌≡◌, ◌%◌};

use crate::words::{debugs, holds, prints, same};
use concurrent_queue::glimpse::{Glimpse, Locked};
use concurrent_queue::{ConcurrentQueue, Exclusive, ForcePushError, NoMemory, PopError, PushError};
use queue_steps::Unbounded;
use std::sync::Mutex;

#[test]
fn errors_print_their_names(rt: HostRuntime) {
    prints(&rt, &PopError::Empty, "Empty");
    prints(&rt, &PopError::Closed, "Closed");
    prints(&rt, &PushError::Full(1), "Full");
    prints(&rt, &PushError::Closed(1), "Closed");
    prints(&rt, &PushError::NoMemory(1), "NoMemory");
    prints(&rt, &ForcePushError::Closed(1), "Closed");
    prints(&rt, &ForcePushError::NoMemory(1), "NoMemory");
    debugs(&rt, &PushError::Full(1), "Full(1)");
    debugs(&rt, &NoMemory, "NoMemory");
}

#[test]
fn queues_and_walks_print_what_they_are(rt: HostRuntime) {
    let ring = ConcurrentQueue::bounded(rt.alloc(), 4).expect(&rt, "memory");
    same(&rt, ring.push(&rt, 'x'), Ok(()));
    let text = "ConcurrentQueue { len: 1, capacity: Some(4), is_closed: false }";
    debugs(&rt, &ring, text);
    let chain = ConcurrentQueue::<u64>::unbounded(rt.alloc());
    holds(&rt, chain.close(&rt));
    let text = "TryIter(ConcurrentQueue { len: 0, capacity: None, is_closed: true })";
    debugs(&rt, &chain.try_iter(&rt), text);
}

// A glimpse takes no runtime value, so it can't wait for a lock that isn't free: then it gives up.
#[test]
fn a_text_looks_under_a_free_lock(rt: HostRuntime) {
    let lock = Mutex::new(Unbounded::<u64>::new(rt.alloc()));
    let glimpse = Glimpse::under(&lock).map(|it| (it.len, it.is_closed));
    same(&rt, glimpse, Some((0, false)));
    debugs(&rt, &Locked, "<locked>");
}

// A walk and its copy take turns at the items, and go on after a push.
#[test]
fn a_walk_and_its_copy_take_turns(rt: HostRuntime) {
    let queue = ConcurrentQueue::unbounded(rt.alloc());
    for item in [1, 2] {
        same(&rt, queue.push(&rt, item), Ok(()));
    }
    let mut walk = queue.try_iter(&rt);
    let mut copy = walk.clone().expect(&rt, "memory");
    same(&rt, (walk.next(), copy.next()), (Some(1), Some(2)));
    same(&rt, (walk.next(), copy.next()), (None, None));
    same(&rt, queue.push(&rt, 3), Ok(()));
    same(&rt, walk.next(), Some(3));
}

// A number of which a proof knows that it is even.
#[derive(Drop)]
struct Even {
    value: u64,
    ghost even: { value % 2 ≡ 0 },
}

// What its type says of an item is known of each that is popped or walked to.
fn value(even: Option<Even>) -> u64
    ensures { result % 2 ≡ 0 }
{
    match even {
        Some(even) => even.value,
        None => 0,
    }
}

#[test]
fn items_keep_what_their_type_promises(rt: HostRuntime) {
    let queue = ConcurrentQueue::bounded(rt.alloc(), 3).expect(&rt, "memory");
    for value in [42, 8] {
        holds(&rt, queue.push(&rt, Even { value }).is_ok());
    }
    same(&rt, value(queue.pop(&rt).ok()), 42);
    same(&rt, value(queue.try_iter(&rt).next()), 8);
    same(&rt, value(queue.pop(&rt).ok()), 0);
}

#[test]
fn no_ring_has_two_to_the_sixty_places(rt: HostRuntime) {
    let refused = Exclusive::<()>::bounded(rt.alloc(), 1 << 60);
    holds(&rt, matches!(refused, Err(NoMemory)));
    let refused = ConcurrentQueue::<()>::bounded(rt.alloc(), 1 << 60);
    holds(&rt, matches!(refused, Err(NoMemory)));
}
