//! Work of one thread on an executor with place for one future, or for one of each mark.
use crate::executor::futures::Yields;
use crate::executor::names::{Futures, Timed, Waker};
use crate::{Fault, Timing};
use async_executor::Mark;
use async_task::{Future, Runtime};
use std::alloc::Global;
use std::rt::Clock;
use std::time::Instant;

/// Spawns a ready future, gives its handle up, and ticks.
pub fn spawn_tick<R: Runtime + Clock>(
    rt: R,
    alloc: Global,
    realm: &'static Futures<R>,
    ops: u64,
) -> Result<Timing, Fault> {
    match Timed::new(rt, alloc, realm, 1) {
        Ok(executor) => time_spawn_tick(&rt, &executor, ops),
        Err(_) => Err(Fault::NoMemory),
    }
}

fn time_spawn_tick<R: Runtime + Clock>(
    rt: &R,
    executor: &Timed<Yields, R>,
    ops: u64,
) -> Result<Timing, Fault> {
    let mut moved = 0u64;
    let start = Instant::now(rt)?;
    for number in 0..ops {
        spawn_detached(executor, Yields { times: 0, number }, Mark::Plain)?;
        moved = moved.wrapping_add(u64::from(executor.try_tick()));
    }
    complete(Timing::since(rt, start, moved)?, ops)
}

/// Ticks, where a future wakes itself at each poll.
pub fn ping<R: Runtime + Clock>(
    rt: R,
    alloc: Global,
    realm: &'static Futures<R>,
    ops: u64,
) -> Result<Timing, Fault> {
    match Timed::new(rt, alloc, realm, 1) {
        Ok(executor) => time_ping(&rt, &executor, &[Mark::Plain], ops),
        Err(_) => Err(Fault::NoMemory),
    }
}

/// Ticks, where an urgent future and a plain one wake themselves at each poll.
pub fn ping_marked<R: Runtime + Clock>(
    rt: R,
    alloc: Global,
    realm: &'static Futures<R>,
    ops: u64,
) -> Result<Timing, Fault> {
    match Timed::new(rt, alloc, realm, 2) {
        Ok(executor) => time_ping(&rt, &executor, &[Mark::Urgent, Mark::Plain], ops),
        Err(_) => Err(Fault::NoMemory),
    }
}

fn time_ping<R: Runtime + Clock>(
    rt: &R,
    executor: &Timed<Yields, R>,
    marks: &[Mark],
    ops: u64,
) -> Result<Timing, Fault> {
    for mark in marks {
        let endless = Yields {
            times: u64::MAX,
            number: 0,
        };
        spawn_detached(executor, endless, *mark)?;
    }
    let mut moved = 0u64;
    let start = Instant::now(rt)?;
    for _ in 0..ops {
        moved = moved.wrapping_add(u64::from(executor.try_tick()));
    }
    complete(Timing::since(rt, start, moved)?, ops)
}

/// Spawns a future that nobody awaits.
fn spawn_detached<R: Runtime>(
    executor: &Timed<Yields, R>,
    future: Yields,
    mark: Mark,
) -> Result<(), Fault> {
    match executor.spawn_marked(future, mark) {
        Ok(task) => {
            task.detach();
            Ok(())
        }
        Err(_) => Err(Fault::Refused),
    }
}

/// Ticks until nothing is to be done.
pub fn tick_all<F: Future<Waker<R>, Output = u64> + Drop, R: Runtime>(
    rt: &R,
    executor: &Timed<F, R>,
) {
    for _ in rt.forever() {
        if !executor.try_tick() {
            return;
        }
    }
    unreachable!()
}

/// A run that moved as much as it had to.
pub fn complete(timing: Timing, want: u64) -> Result<Timing, Fault> {
    if timing.moved == want {
        Ok(timing)
    } else {
        Err(Fault::Refused)
    }
}
