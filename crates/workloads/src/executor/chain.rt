//! Futures of which each awaits the one before.
use crate::executor::awaited::Awaited;
use crate::executor::futures::Yields;
use crate::executor::names::{Futures, Handle, Timed, Waker};
use crate::executor::ticks::{complete, tick_all};
use crate::executor::workplace::Worker;
use crate::{Fault, Timing, round};
use async_task::{Future, Poll, Runtime, Wake};
use std::alloc::Global;
use std::rt::Clock;
use std::time::Instant;

/// How many futures a chain has.
const LINKS: u64 = 10_000;

/// How often the first future gives way.
const TIMES: u64 = 2;

/// A future of a chain.
pub trait Chain<R: Runtime> {
    /// The first, which gives the output of this future.
    fn first(future: Yields) -> Self;

    /// One that awaits the one before it, and gives one more than that.
    fn after(before: Handle<R>) -> Self;
}

/// A future of a chain. What times it is generic over its type, since no code over any runtime type gets a proof of calls on
/// an executor whose futures hold handles.
#[derive(Drop)]
pub enum Link<R: Runtime> {
    First(Yields),
    After(Handle<R>),
}

impl<R: Runtime> Chain<R> for Link<R> {
    fn first(future: Yields) -> Self {
        Link::First(future)
    }

    fn after(before: Handle<R>) -> Self {
        Link::After(before)
    }
}

impl<R: Runtime> Future<Waker<R>> for Link<R> {
    type Output = u64;

    fn poll(&mut self, waker: &Waker<R>) -> Poll<u64> {
        match self {
            Link::First(future) => match future.step() {
                Some(number) => Poll::Ready(number),
                None => {
                    waker.wake_by_ref();
                    Poll::Pending
                }
            },
            Link::After(before) => match before.poll(waker) {
                Poll::Ready(Ok(output)) => Poll::Ready(output.wrapping_add(1)),
                Poll::Ready(Err(_)) => Poll::Ready(0),
                Poll::Pending => Poll::Pending,
            },
        }
    }
}

/// Chains of 10,000 futures, and one of those that are left: each is spawned, ticked until nothing is to be done, and the
/// last output is awaited.
pub fn await_chain<L, P, R: Runtime + Clock>(
    rt: R,
    alloc: Global,
    realm: &'static Futures<R>,
    ops: u64,
) -> Result<Timing, Fault>
where
    L: Chain<R> + Future<Waker<R>, Output = u64> + Drop,
    P: Worker<R>,
{
    match Timed::<L, R>::new(rt, alloc, realm, LINKS as usize) {
        Ok(executor) => time_await_chain::<L, P, R>(rt, alloc, realm, &executor, ops),
        Err(_) => Err(Fault::NoMemory),
    }
}

fn time_await_chain<L, P, R: Runtime + Clock>(
    rt: R,
    alloc: Global,
    realm: &'static Futures<R>,
    executor: &Timed<L, R>,
    ops: u64,
) -> Result<Timing, Fault>
where
    L: Chain<R> + Future<Waker<R>, Output = u64> + Drop,
    P: Worker<R>,
{
    let mut moved = 0u64;
    let start = Instant::now(&rt)?;
    for number in 0..ops.div_ceil(LINKS) {
        let count = round(ops, LINKS, number);
        moved = moved.wrapping_add(links::<L, P, R>(rt, alloc, realm, executor, count)?);
    }
    complete(Timing::since(&rt, start, moved)?, ops)
}

/// One chain. Answers the number of its futures as its last output has it.
fn links<L: Chain<R> + Future<Waker<R>, Output = u64> + Drop, P: Worker<R>, R: Runtime>(
    rt: R,
    alloc: Global,
    realm: &'static Futures<R>,
    executor: &Timed<L, R>,
    count: u64,
) -> Result<u64, Fault> {
    let Some(last) = spawn_links(executor, count) else {
        return Err(Fault::Refused);
    };
    let mut awaited = Awaited::new(rt, alloc, realm);
    awaited.push(last);
    tick_all(&rt, executor);
    match P::outputs(rt, alloc, awaited) {
        Ok(output) => Ok(output.wrapping_sub(TIMES)),
        Err(fault) => Err(fault),
    }
}

/// Spawns one chain, and answers the handle of its last future.
fn spawn_links<L: Chain<R> + Future<Waker<R>, Output = u64> + Drop, R: Runtime>(
    executor: &Timed<L, R>,
    count: u64,
) -> Option<Handle<R>> {
    let first = Yields {
        times: TIMES,
        number: 1,
    };
    let Ok(mut last) = executor.spawn(L::first(first)) else {
        return None;
    };
    for _ in 1..count {
        let Ok(next) = executor.spawn(L::after(last)) else {
            return None;
        };
        last = next;
    }
    Some(last)
}
