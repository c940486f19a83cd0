//! An executor that is run until the futures that were spawned on it have ended.
use crate::local::awaited::Awaited;
use crate::local::many::spawn_share;
use crate::local::names::{Key, Timed};
use crate::local::ticks::complete;
use async_task::{Future, Nobody, Poll};
use local_executor::LocalExWaker;
use std::alloc::Global;
use std::random::RandomSource;
use std::rt::Clock;
use std::sync::Wait;
use std::time::Instant;
use workloads::executor::Yields;
use workloads::{Fault, Timing, round};

/// How many futures there are in one round of `run`.
const JOBS: u64 = 100_000;

/// How many futures there are in `storm`.
const FUTURES: u64 = 1_000;

/// So many jobs, 100,000 in a round, each of which gives way once: they are spawned, and the executor is run until they have ended.
pub fn run<R>(rt: R, alloc: Global, ops: u64) -> Result<Timing, Fault>
where
    R: Clock + RandomSource + Wait + Copy + Drop,
{
    match Timed::new(rt, alloc, JOBS as usize) {
        Ok(executor) => time_run(rt, alloc, &executor, ops),
        Err(_) => Err(Fault::NoMemory),
    }
}

fn time_run<R>(rt: R, alloc: Global, executor: &Timed<Yields, R>, ops: u64) -> Result<Timing, Fault>
where
    R: Clock + Wait + Copy + Drop,
{
    let mut moved = 0u64;
    let start = Instant::now(&rt)?;
    for number in 0..ops.div_ceil(JOBS) {
        let count = round(ops, JOBS, number);
        moved = moved.wrapping_add(work(rt, alloc, executor, 1, count)?);
    }
    complete(Timing::since(&rt, start, moved)?, ops)
}

/// A thousand futures that give way so often that it comes to so many polls, or a few less: the executor is run until they have
/// ended.
pub fn storm<R>(rt: R, alloc: Global, ops: u64) -> Result<Timing, Fault>
where
    R: Clock + RandomSource + Wait + Copy + Drop,
{
    match Timed::new(rt, alloc, FUTURES as usize) {
        Ok(executor) => time_storm(rt, alloc, &executor, ops),
        Err(_) => Err(Fault::NoMemory),
    }
}

fn time_storm<R: Clock + Wait + Copy + Drop>(
    rt: R,
    alloc: Global,
    executor: &Timed<Yields, R>,
    ops: u64,
) -> Result<Timing, Fault> {
    let times = (ops / FUTURES).max(1);
    let start = Instant::now(&rt)?;
    let moved = work(rt, alloc, executor, times, FUTURES)?;
    complete(
        Timing::since(&rt, start, moved)?,
        times.wrapping_mul(FUTURES),
    )
}

/// Spawns so many futures that give way so often, and runs the executor until they have ended. Answers the sum of the outputs.
fn work<R: Wait + Copy + Drop>(
    rt: R,
    alloc: Global,
    executor: &Timed<Yields, R>,
    times: u64,
    count: u64,
) -> Result<u64, Fault> {
    let mut awaited = Awaited::new(rt, alloc);
    spawn_share(executor, times, count, &mut awaited);
    match executor.run(awaited) {
        Ok(run) => poll_to_end(rt, run),
        Err(_) => Err(Fault::NoMemory),
    }
}

/// Polls a run until it is ready. Where it is pending it has called its waker.
fn poll_to_end<G: Future<Key<R>, Output = Result<u64, O>> + Drop, O: Drop, R: Wait + Copy + Drop>(
    rt: R,
    run: G,
) -> Result<u64, Fault> {
    let mut run = run;
    for _ in rt.forever() {
        match run.poll(&LocalExWaker::Outside(Nobody)) {
            Poll::Ready(Ok(sum)) => return Ok(sum),
            Poll::Ready(Err(_)) => return Err(Fault::NoMemory),
            Poll::Pending => {}
        }
    }
    unreachable!()
}
