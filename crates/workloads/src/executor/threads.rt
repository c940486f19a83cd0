//! Threads that run an executor, each until the futures that it spawned itself have ended.
ghost use Rattle.std.specs.Prelude.{◌<◌};

use crate::executor::names::Futures;
use crate::executor::ticks::complete;
use crate::executor::workplace::{Marks, Share, Worker};
use crate::{Fault, Timing, round, share};
use async_task::Runtime;
use std::alloc::AllocGlobal;
use std::rt::Clock;
use std::thread::{self, Threads};
use std::time::Instant;

/// How many futures there are in one round of `run`.
const JOBS: u64 = 100_000;

/// How many futures there are in `storm`.
const FUTURES: u64 = 1_000;

/// So many jobs, 100,000 in a round, each of which gives way once: each of the workers spawns its share, and runs the executor
/// until these have ended.
pub fn run<P: Worker<R> + Sync + Drop, R: Runtime + AllocGlobal + Clock + Threads + Sync>(
    rt: &R,
    realm: &'static Futures<R>,
    workers: usize,
    ops: u64,
) -> Result<Timing, Fault>
    requires { (0 < workers) × (workers < 1000) }
{
    match P::new(*rt, rt.alloc(), realm, JOBS as usize) {
        Ok(place) => time_run(rt, &place, workers, ops),
        Err(fault) => Err(fault),
    }
}

fn time_run<P, R>(rt: &R, place: &P, workers: usize, ops: u64) -> Result<Timing, Fault>
where
    P: Worker<R> + Sync,
    R: Runtime + AllocGlobal + Clock + Threads + Sync,
    requires { (0 < workers) × (workers < 1000) }
{
    let mut moved = 0u64;
    let start = Instant::now(rt)?;
    for number in 0..ops.div_ceil(JOBS) {
        let all = Share {
            jobs: round(ops, JOBS, number),
            times: 1,
            number: 0,
            marks: Marks::Plain,
        };
        moved = moved.wrapping_add(work_of_all(rt, place, workers, all)?);
    }
    complete(Timing::since(rt, start, moved)?, ops)
}

/// A thousand futures that give way so often that it comes to so many polls, or a few less: each of the workers spawns its
/// share, and runs the executor until these have ended.
pub fn storm<P: Worker<R> + Sync + Drop, R: Runtime + AllocGlobal + Clock + Threads + Sync>(
    rt: &R,
    realm: &'static Futures<R>,
    workers: usize,
    marks: Marks,
    ops: u64,
) -> Result<Timing, Fault>
    requires { (0 < workers) × (workers < 1000) }
{
    match P::new(*rt, rt.alloc(), realm, FUTURES as usize) {
        Ok(place) => time_storm(rt, &place, workers, marks, ops),
        Err(fault) => Err(fault),
    }
}

fn time_storm<P: Worker<R> + Sync, R: Runtime + AllocGlobal + Clock + Threads + Sync>(
    rt: &R,
    place: &P,
    workers: usize,
    marks: Marks,
    ops: u64,
) -> Result<Timing, Fault>
    requires { (0 < workers) × (workers < 1000) }
{
    let times = ops / FUTURES;
    let all = Share {
        jobs: FUTURES,
        times,
        number: 0,
        marks,
    };
    let start = Instant::now(rt)?;
    let moved = work_of_all(rt, place, workers, all)?;
    complete(Timing::since(rt, start, moved)?, ops - ops % FUTURES)
}

/// One round of all workers, each on a thread. Answers the sum of the outputs.
fn work_of_all<P, R>(rt: &R, place: &P, workers: usize, all: Share) -> Result<u64, Fault>
where
    P: Worker<R> + Sync,
    R: Runtime + AllocGlobal + Threads + Sync,
    requires { (0 < workers) × (workers < 1000) }
{
    let sums = thread::map_indices(
        rt,
        rt.alloc(),
        workers,
        &|party| { work_of_one(place, workers, party, all) },
    )?;
    let mut moved = 0u64;
    for sum in &sums {
        moved = moved.wrapping_add(*sum);
    }
    Ok(moved)
}

fn work_of_one<P: Worker<R>, R: Runtime>(place: &P, workers: usize, party: usize, all: Share) -> u64
    requires { 0 < workers }
{
    place.work(Share {
        jobs: share(all.jobs, workers as u64, party as u64),
        ..all
    })
}
