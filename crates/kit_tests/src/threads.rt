//! Between threads: each loop is bounded, and each answer the same whatever the schedule.
use async_task::{Future, Poll, Runtime};
use blocking::{ThreadWaker, block_on};
use futures::channel::oneshot::{self, Receiver, Sender};
use kit_futures::{Bridge, Compat};
use std::alloc::Global;
use std::collections::VecDeque;
use std::{io, thread};

type Awaited<R> = Compat<Receiver<u64>, ThreadWaker, R>;

/// Gives up at its first poll, where it has to wait.
#[derive(Drop)]
struct Hasty<R: Runtime>(Option<Awaited<R>>);

impl<R: Runtime> Future<ThreadWaker> for Hasty<R> {
    type Output = ();

    fn poll(&mut self, waker: &ThreadWaker) -> Poll<()> {
        if let Some(awaited) = &mut self.0 {
            let _polled = awaited.poll(waker);
        }
        self.0 = None;
        Poll::Ready(())
    }
}

/// The number that comes, and 0 where none comes.
fn number<R: Runtime>(rt: R, alloc: Global, awaited: Awaited<R>) -> u64 {
    match block_on::<ThreadWaker, _, _>(&rt, alloc, awaited) {
        Ok(Ok(Ok(number))) => number,
        _ => 0,
    }
}

/// What the numbers add up to. Every fifth is let go at its first poll.
fn sum<R: Runtime>(rt: R, alloc: Global, all: VecDeque<Awaited<R>>) -> u64 {
    let mut sum = 0u64;
    for (place, awaited) in all.into_iter().enumerate() {
        if place % 5 == 4 {
            let _gone = block_on::<ThreadWaker, _, _>(&rt, alloc, Hasty(Some(awaited)));
        } else {
            sum = sum.saturating_add(number(rt, alloc, awaited));
        }
    }
    sum
}

fn send(senders: VecDeque<Sender<u64>>) {
    for sender in senders {
        let _sent = sender.send(3);
    }
}

/// So many receivers that are awaited, and their senders.
fn channels<R: Runtime>(
    bridge: &Bridge<ThreadWaker, R>,
    alloc: Global,
    count: u64,
) -> io::Result<(VecDeque<Sender<u64>>, VecDeque<Awaited<R>>)> {
    let (mut senders, mut all) = (VecDeque::new(alloc), VecDeque::new(alloc));
    for _ in 0..count {
        let (sender, receiver) = oneshot::channel(alloc)?;
        let Ok(awaited) = Compat::new(bridge, receiver) else {
            return Err(io::ErrorKind::OutOfMemory.into());
        };
        senders.push_back(sender)?;
        all.push_back(awaited)?;
    }
    Ok((senders, all))
}

/// A hundred numbers come, from another thread, to futures that are awaited on this one, while a third thread hears.
#[test]
fn what_is_sent_comes(rt: HostRuntime) -> io::Result<()> {
    let alloc = rt.alloc();
    let bridge = Bridge::leak(rt, alloc)?;
    let (senders, all) = channels(&*bridge, alloc, 125)?;
    let awaits = || {
        let sum = sum(rt, alloc, all);
        bridge.close();
        sum
    };
    let works = || thread::join(&rt, awaits, || send(senders));
    let ((sum, ()), heard) = thread::join(&rt, works, || bridge.hear());
    assert!(rt; (sum == 300) & heard.is_ok());
    Ok(())
}

/// A close tells who waits, a hundred times, whether it has begun to wait or not.
#[test]
fn a_close_tells_who_waits(rt: HostRuntime) -> io::Result<()> {
    let alloc = rt.alloc();
    let mut told = 0u64;
    for _ in 0..100 {
        let bridge = Bridge::leak(rt, alloc)?;
        let (senders, all) = channels(&*bridge, alloc, 1)?;
        let works = || thread::join(&rt, || sum(rt, alloc, all), || bridge.hear());
        let ((sum, heard), ()) = thread::join(&rt, works, || bridge.close());
        drop(senders);
        if (sum == 0) & heard.is_ok() {
            told = told.saturating_add(1);
        }
    }
    assert!(rt; told == 100);
    Ok(())
}
