//! A queue of two places: pushed to, displaced in, closed and emptied. And the calls on a slot and on a ring that are lent a seat.
use concurrent_queue::bounded::Bounded;
use concurrent_queue::single::Single;
use concurrent_queue::{ConcurrentQueue, PopError, PushError, seated};
use std::io;

#[test]
fn a_closed_queue_gives_what_it_holds(rt: HostRuntime) -> io::Result<()> {
    let queue = ConcurrentQueue::<u64>::bounded(rt.alloc(), 2)?;
    assert!(rt; queue.push(&rt, 1).is_ok() & queue.push(&rt, 2).is_ok());
    assert!(rt; matches!(queue.push(&rt, 3), Err(PushError::Full(3))));
    assert!(rt; matches!(queue.force_push(&rt, 3), Ok(Some(1))));
    assert!(rt; queue.close(&rt));
    assert!(rt; matches!(queue.push(&rt, 4), Err(PushError::Closed(4))));
    assert!(rt; matches!(queue.pop(&rt), Ok(2)) & matches!(queue.pop(&rt), Ok(3)));
    assert!(rt; matches!(queue.pop(&rt), Err(PopError::Closed)));
    Ok(())
}

#[test]
fn calls_are_lent_a_seat(rt: HostRuntime) -> io::Result<()> {
    let slot = Single::<u64>::new(rt.alloc())?;
    let mut seat = slot.seat();
    assert!(rt; seated::single::push(&rt, &slot, &mut seat, 5).is_ok());
    let ring = Bounded::<u64>::new(rt.alloc(), 4)?;
    let mut seat = ring.seat();
    assert!(rt; seated::bounded::close(&ring, &mut seat));
    Ok(())
}
