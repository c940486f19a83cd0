//! Futures whose ends come from other threads while they are polled. Each loop is bounded, and each answer the same whatever the
//! schedule.
use crate::waits::bell::{Bell, wait};
use std::sync::atomic::AtomicU64;
use std::sync::atomic::Ordering::SeqCst;
use std::{io, thread};
use waiting::{Either, join, oneshot, select};

/// Waits, a bounded time, until so many have come.
fn meet(come: &AtomicU64, all: u64) {
    come.fetch_add(1, SeqCst);
    for _ in 0..1_000_000_000u64 {
        if come.load(SeqCst) >= all {
            return;
        }
    }
}

/// Two threads send a value each, at the same time as a third awaits both, 200 times.
#[test]
fn both_values_come(rt: HostRuntime) -> io::Result<()> {
    let alloc = rt.alloc();
    let mut sum = 0u64;
    for number in 1..=200 {
        let (one, first) = oneshot::channel::<u64, Bell, _>(rt, alloc)?;
        let (two, second) = oneshot::channel::<u64, Bell, _>(rt, alloc)?;
        let (bell, come) = (Bell::new(alloc, false)?, AtomicU64::new(0));
        let send_one = || {
            meet(&come, 3);
            one.send(number).is_ok()
        };
        let send_two = || {
            meet(&come, 3);
            two.send(number).is_ok()
        };
        let receive = || {
            meet(&come, 3);
            wait(&bell, join(first, second))
        };
        let (_, both) = thread::join(&rt, || thread::join(&rt, send_one, send_two), receive);
        if let Some((Ok(left), Ok(right))) = both {
            sum = sum.saturating_add(left).saturating_add(right);
        }
    }
    assert!(rt; sum == 40_200);
    Ok(())
}

/// As before, but the third awaits the first of the two, and then the other.
#[test]
fn the_first_value_comes_and_then_the_other(rt: HostRuntime) -> io::Result<()> {
    let alloc = rt.alloc();
    let mut sum = 0u64;
    for number in 1..=200 {
        let (one, first) = oneshot::channel::<u64, Bell, _>(rt, alloc)?;
        let (two, second) = oneshot::channel::<u64, Bell, _>(rt, alloc)?;
        let (bell, come) = (Bell::new(alloc, false)?, AtomicU64::new(0));
        let send_one = || {
            meet(&come, 3);
            one.send(number).is_ok()
        };
        let send_two = || {
            meet(&come, 3);
            two.send(number).is_ok()
        };
        let receive = || {
            meet(&come, 3);
            let (came, other) = match wait(&bell, select(first, second)) {
                Some(Either::Left((came, other)) | Either::Right((came, other))) => (came, other),
                None => return 0,
            };
            match (came, wait(&bell, other)) {
                (Ok(before), Some(Ok(after))) => before.saturating_add(after),
                _ => 0,
            }
        };
        let (_, both) = thread::join(&rt, || thread::join(&rt, send_one, send_two), receive);
        sum = sum.saturating_add(both);
    }
    assert!(rt; sum == 40_200);
    Ok(())
}
