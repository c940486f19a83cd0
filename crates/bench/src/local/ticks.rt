//! Work on an executor with place for one future.
use crate::local::names::{Key, Timed};
use async_task::Future;
use std::alloc::Global;
use std::random::RandomSource;
use std::rt::Clock;
use std::sync::Wait;
use std::time::Instant;
use workloads::executor::Yields;
use workloads::{Fault, Timing};

/// Spawns a ready future, gives its handle up, and ticks.
pub fn spawn_tick<R>(rt: R, alloc: Global, ops: u64) -> Result<Timing, Fault>
where
    R: Clock + RandomSource + Wait + Copy + Drop,
{
    match Timed::new(rt, alloc, 1) {
        Ok(executor) => time_spawn_tick(&rt, &executor, ops),
        Err(_) => Err(Fault::NoMemory),
    }
}

fn time_spawn_tick<R>(rt: &R, executor: &Timed<Yields, R>, ops: u64) -> Result<Timing, Fault>
where
    R: Clock + Wait + Copy + Drop,
{
    let mut moved = 0u64;
    let start = Instant::now(rt)?;
    for number in 0..ops {
        spawn_detached(executor, Yields { times: 0, number })?;
        moved = moved.wrapping_add(u64::from(executor.try_tick()));
    }
    complete(Timing::since(rt, start, moved)?, ops)
}

/// Ticks, where a future wakes itself at each poll.
pub fn ping<R>(rt: R, alloc: Global, ops: u64) -> Result<Timing, Fault>
where
    R: Clock + RandomSource + Wait + Copy + Drop,
{
    match Timed::new(rt, alloc, 1) {
        Ok(executor) => time_ping(&rt, &executor, ops),
        Err(_) => Err(Fault::NoMemory),
    }
}

fn time_ping<R>(rt: &R, executor: &Timed<Yields, R>, ops: u64) -> Result<Timing, Fault>
where
    R: Clock + Wait + Copy + Drop,
{
    spawn_detached(
        executor,
        Yields {
            times: u64::MAX,
            number: 0,
        },
    )?;
    let mut moved = 0u64;
    let start = Instant::now(rt)?;
    for _ in 0..ops {
        moved = moved.wrapping_add(u64::from(executor.try_tick()));
    }
    complete(Timing::since(rt, start, moved)?, ops)
}

/// Spawns a future that nobody awaits.
pub fn spawn_detached<R: Wait + Copy + Drop>(
    executor: &Timed<Yields, R>,
    future: Yields,
) -> Result<(), Fault> {
    match executor.spawn(future) {
        Ok(task) => {
            task.detach();
            Ok(())
        }
        Err(_) => Err(Fault::Refused),
    }
}

/// Ticks until nothing is to be done.
pub fn tick_all<F: Future<Key<R>, Output = u64> + Drop, R: Wait + Copy + Drop>(
    rt: &R,
    executor: &Timed<F, R>,
) {
    for _ in rt.forever() {
        if !executor.try_tick() {
            return;
        }
    }
    unreachable!()
}

/// A run that moved as much as it had to.
pub fn complete(timing: Timing, want: u64) -> Result<Timing, Fault> {
    if timing.moved == want {
        Ok(timing)
    } else {
        Err(Fault::Refused)
    }
}
