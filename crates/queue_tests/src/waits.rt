//! What waits, between threads: each loop is bounded, and each answer the same whatever the schedule.
mod alone;
mod at_random;
mod bell;
mod calls;
mod giving_up;
mod left_over;
mod looks;
mod permits;
mod sections;
mod semaphore;
mod together;

use blocking::{ThreadWaker, block_on};
use std::alloc::AllocError;
use std::sync::atomic::AtomicU64;
use std::sync::atomic::Ordering::SeqCst;
use std::{io, thread};
use waiting::{Event, channel, oneshot};

/// What two threads had, together.
fn total(ends: Result<Vec<u64>, AllocError>) -> u64 {
    match ends {
        Ok(ends) => ends.iter().fold(0, |sum, one| sum.saturating_add(*one)),
        Err(_) => 0,
    }
}

/// Two threads send 500 numbers each through two places, and two receive until the channel is closed.
#[test]
fn each_message_is_received_once(rt: HostRuntime) -> io::Result<()> {
    let alloc = rt.alloc();
    let (sender, receiver) = channel::bounded::<u64, ThreadWaker, ThreadWaker, _>(rt, alloc, 2)?;
    let sends = |_| {
        let Ok(mine) = sender.clone() else {
            return 0;
        };
        let mut sent = 0u64;
        for number in 1..=500 {
            if let Ok(Ok(())) = block_on::<ThreadWaker, _, _>(&rt, alloc, mine.send(number)) {
                sent = sent.saturating_add(number);
            }
        }
        sent
    };
    let send = || {
        let ends = thread::map_indices(&rt, alloc, 2, &sends);
        sender.close();
        total(ends)
    };
    let receives = |_| {
        let Ok(mine) = receiver.clone() else {
            return 0;
        };
        let mut sum = 0u64;
        for _ in 0..1_001 {
            let Ok(Ok(number)) = block_on::<ThreadWaker, _, _>(&rt, alloc, mine.recv()) else {
                return sum;
            };
            sum = sum.saturating_add(number);
        }
        sum
    };
    let receive = || total(thread::map_indices(&rt, alloc, 2, &receives));
    let (sent, received) = thread::join(&rt, send, receive);
    assert!(rt; (sent == 250_500) & (received == 250_500));
    Ok(())
}

/// Two threads raise a number in turn, 400 times. Each listens, then looks whether it is its turn, and then waits.
#[test]
fn who_listens_is_told(rt: HostRuntime) -> io::Result<()> {
    let alloc = rt.alloc();
    let event = Event::<ThreadWaker, _>::new(rt, alloc)?;
    let number = AtomicU64::new(0);
    let takes_turns = &|own| {
        let mut turns = 0u64;
        for _ in 0..100_000 {
            let Ok(listener) = event.listen() else {
                return turns;
            };
            let seen = number.load(SeqCst);
            if turns == 200 {
                return turns;
            }
            if seen % 2 == own as u64 {
                number.store(seen.wrapping_add(1), SeqCst);
                event.notify_all();
                turns = turns.saturating_add(1);
            } else {
                let _ = block_on::<ThreadWaker, _, _>(&rt, alloc, listener);
            }
        }
        turns
    };
    let ends = thread::map_indices(&rt, alloc, 2, takes_turns);
    assert!(rt; (total(ends) == 400) & (number.load(SeqCst) == 400));
    Ok(())
}

/// A value is handed over 200 times, each to a thread that may wait for it already.
#[test]
fn each_value_is_handed_over(rt: HostRuntime) -> io::Result<()> {
    let alloc = rt.alloc();
    let mut sum = 0u64;
    for number in 1..=200 {
        let (sender, receiver) = oneshot::channel::<u64, ThreadWaker, _>(rt, alloc)?;
        let receive = || block_on::<ThreadWaker, _, _>(&rt, alloc, receiver);
        let (_, received) = thread::join(&rt, || sender.send(number).is_ok(), receive);
        if let Ok(Ok(value)) = received {
            sum = sum.saturating_add(value);
        }
    }
    assert!(rt; sum == 20_100);
    Ok(())
}
