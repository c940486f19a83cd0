//! Many ready futures at a time.
use crate::executor::awaited::Awaited;
use crate::executor::futures::Yields;
use crate::executor::names::{Futures, Timed};
use crate::executor::ticks::{complete, tick_all};
use crate::executor::workplace::{Marks, Share, Worker, spawn_share};
use crate::{Fault, Timing, round};
use async_task::Runtime;
use std::alloc::Global;
use std::rt::Clock;
use std::time::Instant;

/// How many futures there are at a time.
const FUTURES: u64 = 50_000;

/// Rounds of 50,000 ready futures, and one of those that are left: they are spawned one by one, ticked until nothing is to be
/// done, and their outputs taken.
pub fn spawn_many<P: Worker<R>, R: Runtime + Clock>(
    rt: R,
    alloc: Global,
    realm: &'static Futures<R>,
    ops: u64,
) -> Result<Timing, Fault> {
    match Timed::new(rt, alloc, realm, FUTURES as usize) {
        Ok(executor) => time_spawn_many::<P, R>(rt, alloc, realm, &executor, ops),
        Err(_) => Err(Fault::NoMemory),
    }
}

fn time_spawn_many<P: Worker<R>, R: Runtime + Clock>(
    rt: R,
    alloc: Global,
    realm: &'static Futures<R>,
    executor: &Timed<Yields, R>,
    ops: u64,
) -> Result<Timing, Fault> {
    let mut moved = 0u64;
    let start = Instant::now(&rt)?;
    for number in 0..ops.div_ceil(FUTURES) {
        let count = round(ops, FUTURES, number);
        moved = moved.wrapping_add(outputs_of::<P, R>(rt, alloc, realm, executor, count)?);
    }
    complete(Timing::since(&rt, start, moved)?, ops)
}

/// One round, in which each future gives 1: the sum of the outputs.
fn outputs_of<P: Worker<R>, R: Runtime>(
    rt: R,
    alloc: Global,
    realm: &'static Futures<R>,
    executor: &Timed<Yields, R>,
    count: u64,
) -> Result<u64, Fault> {
    let mut awaited = Awaited::new(rt, alloc, realm);
    let share = Share {
        jobs: count,
        times: 0,
        number: 1,
        marks: Marks::Plain,
    };
    spawn_share(executor, share, &mut awaited);
    tick_all(&rt, executor);
    P::outputs(rt, alloc, awaited)
}

/// Rounds of 50,000 futures, and one of those that are left: an executor is made, they are spawned, and it is dropped.
pub fn drop_full<R: Runtime + Clock>(
    rt: R,
    alloc: Global,
    realm: &'static Futures<R>,
    ops: u64,
) -> Result<Timing, Fault> {
    let mut moved = 0u64;
    let start = Instant::now(&rt)?;
    for number in 0..ops.div_ceil(FUTURES) {
        let count = round(ops, FUTURES, number);
        moved = moved.wrapping_add(dropped(rt, alloc, realm, count)?);
    }
    complete(Timing::since(&rt, start, moved)?, ops)
}

/// Spawns so many futures on an executor, and drops it before one was polled.
fn dropped<R: Runtime>(
    rt: R,
    alloc: Global,
    realm: &'static Futures<R>,
    count: u64,
) -> Result<u64, Fault> {
    let executor: Timed<Yields, R> = match Timed::new(rt, alloc, realm, FUTURES as usize) {
        Ok(executor) => executor,
        Err(_) => return Err(Fault::NoMemory),
    };
    let mut accepted = 0u64;
    for number in 0..count {
        if let Ok(task) = executor.spawn(Yields { times: 0, number }) {
            task.detach();
            accepted = accepted.wrapping_add(1);
        }
    }
    drop(executor);
    Ok(accepted)
}
