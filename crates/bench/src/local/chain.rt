//! Futures of which each awaits the one before.
use crate::local::awaited::Awaited;
use crate::local::names::{Handle, Key, Timed};
use crate::local::ticks::{complete, tick_all};
use async_task::{Future, Poll, Wake};
use std::alloc::Global;
use std::random::RandomSource;
use std::rt::Clock;
use std::sync::Wait;
use std::time::Instant;
use workloads::executor::Yields;
use workloads::{Fault, Timing, round};

/// How many futures a chain has.
const LINKS: u64 = 10_000;

/// How often the first future gives way.
const TIMES: u64 = 2;

/// A future of a chain.
#[derive(Drop)]
enum Link<R: Wait + Copy + Drop> {
    /// The first, which gives the output of this future.
    First(Yields),
    /// One that awaits the one before it, and gives one more than that.
    After(Handle<R>),
}

impl<R: Wait + Copy + Drop> Future<Key<R>> for Link<R> {
    type Output = u64;

    fn poll(&mut self, waker: &Key<R>) -> Poll<u64> {
        match self {
            Link::First(future) => match future.step() {
                Some(number) => Poll::Ready(number),
                None => {
                    waker.wake_by_ref();
                    Poll::Pending
                }
            },
            Link::After(before) => match before.poll(waker) {
                Poll::Ready(Ok(output)) => Poll::Ready(output.wrapping_add(1)),
                Poll::Ready(Err(_)) => Poll::Ready(0),
                Poll::Pending => Poll::Pending,
            },
        }
    }
}

/// Chains of 10,000 futures, and one of those that are left: each is spawned, ticked until nothing is to be done, and the last
/// output is awaited.
pub fn await_chain<R>(rt: R, alloc: Global, ops: u64) -> Result<Timing, Fault>
where
    R: Clock + RandomSource + Wait + Copy + Drop,
{
    match Timed::new(rt, alloc, LINKS as usize) {
        Ok(executor) => time_await_chain(rt, alloc, &executor, ops),
        Err(_) => Err(Fault::NoMemory),
    }
}

fn time_await_chain<R: Clock + Wait + Copy + Drop>(
    rt: R,
    alloc: Global,
    executor: &Timed<Link<R>, R>,
    ops: u64,
) -> Result<Timing, Fault> {
    let mut moved = 0u64;
    let start = Instant::now(&rt)?;
    for number in 0..ops.div_ceil(LINKS) {
        let count = round(ops, LINKS, number);
        moved = moved.wrapping_add(links(rt, alloc, executor, count)?);
    }
    complete(Timing::since(&rt, start, moved)?, ops)
}

/// One chain. Answers the number of its futures as its last output has it.
fn links<R>(rt: R, alloc: Global, executor: &Timed<Link<R>, R>, count: u64) -> Result<u64, Fault>
where
    R: Wait + Copy + Drop,
{
    let Some(last) = spawn_links(executor, count) else {
        return Err(Fault::Refused);
    };
    let mut awaited = Awaited::new(rt, alloc);
    awaited.push(last);
    tick_all(&rt, executor);
    match awaited.into_sum() {
        Some(output) => Ok(output.wrapping_sub(TIMES)),
        None => Err(Fault::Refused),
    }
}

/// Spawns one chain, and answers the handle of its last future.
fn spawn_links<R: Wait + Copy + Drop>(
    executor: &Timed<Link<R>, R>,
    count: u64,
) -> Option<Handle<R>> {
    let first = Yields {
        times: TIMES,
        number: 1,
    };
    let Ok(mut last) = executor.spawn(Link::First(first)) else {
        return None;
    };
    for _ in 1..count {
        let Ok(next) = executor.spawn(Link::After(last)) else {
            return None;
        };
        last = next;
    }
    Some(last)
}
