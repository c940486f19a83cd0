//! Many ready futures at a time.
use crate::local::awaited::Awaited;
use crate::local::names::Timed;
use crate::local::ticks::{complete, spawn_detached, tick_all};
use std::alloc::Global;
use std::random::RandomSource;
use std::rt::Clock;
use std::sync::Wait;
use std::time::Instant;
use workloads::executor::Yields;
use workloads::{Fault, Timing, round};

/// How many futures there are at a time.
const FUTURES: u64 = 50_000;

/// Rounds of 50,000 ready futures, and one of those that are left: they are spawned one by one, ticked until nothing is to be
/// done, and their outputs taken.
pub fn spawn_many<R>(rt: R, alloc: Global, ops: u64) -> Result<Timing, Fault>
where
    R: Clock + RandomSource + Wait + Copy + Drop,
{
    match Timed::new(rt, alloc, FUTURES as usize) {
        Ok(executor) => time_spawn_many(rt, alloc, &executor, ops),
        Err(_) => Err(Fault::NoMemory),
    }
}

fn time_spawn_many<R: Clock + Wait + Copy + Drop>(
    rt: R,
    alloc: Global,
    executor: &Timed<Yields, R>,
    ops: u64,
) -> Result<Timing, Fault> {
    let mut moved = 0u64;
    let start = Instant::now(&rt)?;
    for number in 0..ops.div_ceil(FUTURES) {
        let count = round(ops, FUTURES, number);
        moved = moved.wrapping_add(outputs_of(rt, alloc, executor, count)?);
    }
    complete(Timing::since(&rt, start, moved)?, ops)
}

/// One round, in which each future gives 1: the sum of the outputs.
fn outputs_of<R: Wait + Copy + Drop>(
    rt: R,
    alloc: Global,
    executor: &Timed<Yields, R>,
    count: u64,
) -> Result<u64, Fault> {
    let mut awaited = Awaited::new(rt, alloc);
    spawn_share(executor, 0, count, &mut awaited);
    tick_all(&rt, executor);
    match awaited.into_sum() {
        Some(sum) => Ok(sum),
        None => Err(Fault::Refused),
    }
}

/// Spawns so many futures that each give way so often, and in the end give how often, or 1 where that is never.
pub fn spawn_share<R>(executor: &Timed<Yields, R>, times: u64, count: u64, awaited: &mut Awaited<R>)
where
    R: Wait + Copy + Drop,
{
    let number = u64::from(times == 0);
    for _ in 0..count {
        if let Ok(task) = executor.spawn(Yields { times, number }) {
            awaited.push(task);
        }
    }
}

/// Rounds of 50,000 futures, and one of those that are left: an executor is made, they are spawned, and it is dropped.
pub fn drop_full<R>(rt: R, alloc: Global, ops: u64) -> Result<Timing, Fault>
where
    R: Clock + RandomSource + Wait + Copy + Drop,
{
    let mut moved = 0u64;
    let start = Instant::now(&rt)?;
    for number in 0..ops.div_ceil(FUTURES) {
        let count = round(ops, FUTURES, number);
        moved = moved.wrapping_add(dropped(rt, alloc, count)?);
    }
    complete(Timing::since(&rt, start, moved)?, ops)
}

/// Spawns so many futures on an executor, and drops it before one was polled.
fn dropped<R>(rt: R, alloc: Global, count: u64) -> Result<u64, Fault>
where
    R: RandomSource + Wait + Copy + Drop,
{
    let executor: Timed<Yields, R> = match Timed::new(rt, alloc, FUTURES as usize) {
        Ok(executor) => executor,
        Err(_) => return Err(Fault::NoMemory),
    };
    let mut accepted = 0u64;
    for number in 0..count {
        if spawn_detached(&executor, Yields { times: 0, number }).is_ok() {
            accepted = accepted.wrapping_add(1);
        }
    }
    drop(executor);
    Ok(accepted)
}
