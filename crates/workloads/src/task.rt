//! Work on tasks in one thread. The realm is handed in: one of them is enough for all.
mod parts;

pub use crate::task::parts::{Line, Tasks, Work};
use crate::task::parts::{
    Queue, Spawned, Waiting, WorkTask, WorkWaker, empty_queue, run, run_next, spawn_to,
};
use crate::work::TaskWork;
use crate::{Fault, Timing};
use async_task::local_task::{Settled, Start};
use async_task::{
    Awaiter, Back, Future, LocalTask, Nobody, Poll, Returning, Runtime, StoredRunnable, TaskError,
    Wake,
};
use concurrent_queue::ConcurrentQueue;
use std::alloc::Global;
use std::rt::Clock;
use std::time::Instant;

/// Does so many operations on tasks that lie in this realm.
pub fn time<R: Runtime + Clock>(
    work: TaskWork,
    rt: R,
    alloc: Global,
    realm: &'static Tasks<R>,
    ops: u64,
) -> Result<Timing, Fault> {
    match work {
        TaskWork::SpawnRun => spawn_run(rt, alloc, realm, ops),
        TaskWork::DropHandle => drop_handle(rt, alloc, realm, ops),
        TaskWork::WakeRun => wake_run(rt, alloc, realm, ops),
        TaskWork::SelfWake => self_wake(rt, alloc, realm, ops),
        TaskWork::WakeTwice => wake_twice(rt, alloc, realm, ops),
        TaskWork::WakerClone => waker_clone(rt, alloc, realm, ops),
        TaskWork::PollPending => poll_pending(rt, alloc, realm, ops),
        TaskWork::SelfWakeLocalTask => self_wake_alone(&rt, alloc, ops),
    }
}

/// Spawns, queues, runs and polls futures that give the numbers below `ops`.
fn spawn_run<R: Runtime + Clock>(
    rt: R,
    alloc: Global,
    realm: &'static Tasks<R>,
    ops: u64,
) -> Result<Timing, Fault> {
    time_spawn_run(rt, realm, &empty_queue(alloc)?, ops)
}

fn time_spawn_run<R: Runtime + Clock>(
    rt: R,
    realm: &'static Tasks<R>,
    queue: &Queue,
    ops: u64,
) -> Result<Timing, Fault> {
    let mut moved = 0u64;
    let start = Instant::now(&rt)?;
    for number in 0..ops {
        moved = moved.wrapping_add(output_of(rt, realm, queue, number)?);
    }
    Timing::since(&rt, start, moved)
}

/// Spawns, queues, runs and polls a future that gives this number, and answers what the poll gave.
fn output_of<R: Runtime>(
    rt: R,
    realm: &'static Tasks<R>,
    queue: &Queue,
    number: u64,
) -> Result<u64, Fault> {
    match spawn_to(rt, realm, queue, Work::Ready(number)) {
        Ok((runnable, mut task)) => {
            runnable.schedule();
            match run_next(rt, realm, queue) {
                Some(false) => output(task.poll(&Awaiter::Outside(Nobody))),
                _ => Err(Fault::Refused),
            }
        }
        Err(fault) => Err(fault),
    }
}

/// The output that a poll has given.
fn output(polled: Poll<Result<u64, TaskError>>) -> Result<u64, Fault> {
    match polled {
        Poll::Ready(Ok(output)) => Ok(output),
        Poll::Ready(Err(_)) | Poll::Pending => Err(Fault::Refused),
    }
}

/// Spawns futures, drops their handles and runs them, so that they are dropped unpolled.
fn drop_handle<R: Runtime + Clock>(
    rt: R,
    alloc: Global,
    realm: &'static Tasks<R>,
    ops: u64,
) -> Result<Timing, Fault> {
    time_drop_handle(rt, realm, &empty_queue(alloc)?, ops)
}

fn time_drop_handle<R: Runtime + Clock>(
    rt: R,
    realm: &'static Tasks<R>,
    queue: &Queue,
    ops: u64,
) -> Result<Timing, Fault> {
    let mut moved = 0u64;
    let start = Instant::now(&rt)?;
    for _ in 0..ops {
        moved = moved.wrapping_add(dropped_unpolled(rt, realm, queue)?);
    }
    Timing::since(&rt, start, moved)
}

/// Spawns a future, drops its handle and runs it. Answers 1, where the run found no wake.
fn dropped_unpolled<R: Runtime>(
    rt: R,
    realm: &'static Tasks<R>,
    queue: &Queue,
) -> Result<u64, Fault> {
    match spawn_to(rt, realm, queue, Work::Waits) {
        Ok((runnable, task)) => {
            drop(task);
            Ok(u64::from(!run(runnable)))
        }
        Err(fault) => Err(fault),
    }
}

/// Wakes an idle future by a waker that is kept, and runs it.
fn wake_run<R: Runtime + Clock>(
    rt: R,
    alloc: Global,
    realm: &'static Tasks<R>,
    ops: u64,
) -> Result<Timing, Fault> {
    match Waiting::new(rt, alloc, realm) {
        Ok(Waiting { spawned, waker }) => {
            run(spawned.runnable);
            time_wake_run(rt, realm, &spawned.queue, &waker, ops)
        }
        Err(fault) => Err(fault),
    }
}

fn time_wake_run<R: Runtime + Clock>(
    rt: R,
    realm: &'static Tasks<R>,
    queue: &ConcurrentQueue<Returning<StoredRunnable>>,
    waker: &WorkWaker<R>,
    ops: u64,
) -> Result<Timing, Fault> {
    let mut moved = 0u64;
    let start = Instant::now(&rt)?;
    for _ in 0..ops {
        waker.wake_by_ref();
        if let Some(false) = run_next(rt, realm, queue) {
            moved = moved.wrapping_add(1);
        }
    }
    Timing::since(&rt, start, moved)
}

/// Runs a future that wakes itself in each poll.
fn self_wake<R: Runtime + Clock>(
    rt: R,
    alloc: Global,
    realm: &'static Tasks<R>,
    ops: u64,
) -> Result<Timing, Fault> {
    match Spawned::new(rt, alloc, realm, Work::WakesItself) {
        Ok(spawned) => {
            spawned.runnable.schedule();
            time_self_wake(rt, realm, &spawned.queue, ops)
        }
        Err(fault) => Err(fault),
    }
}

fn time_self_wake<R: Runtime + Clock>(
    rt: R,
    realm: &'static Tasks<R>,
    queue: &ConcurrentQueue<Returning<StoredRunnable>>,
    ops: u64,
) -> Result<Timing, Fault> {
    let mut moved = 0u64;
    let start = Instant::now(&rt)?;
    for _ in 0..ops {
        if let Some(true) = run_next(rt, realm, queue) {
            moved = moved.wrapping_add(1);
        }
    }
    Timing::since(&rt, start, moved)
}

/// Wakes a task that is to be run already.
fn wake_twice<R: Runtime + Clock>(
    rt: R,
    alloc: Global,
    realm: &'static Tasks<R>,
    ops: u64,
) -> Result<Timing, Fault> {
    match Waiting::new(rt, alloc, realm) {
        Ok(waiting) => time_wake_twice(rt, &waiting.spawned.queue, &waiting.waker, ops),
        Err(fault) => Err(fault),
    }
}

fn time_wake_twice<R: Runtime + Clock>(
    rt: R,
    queue: &ConcurrentQueue<Returning<StoredRunnable>>,
    waker: &WorkWaker<R>,
    ops: u64,
) -> Result<Timing, Fault> {
    let mut moved = 0u64;
    let start = Instant::now(&rt)?;
    for _ in 0..ops {
        waker.wake_by_ref();
        moved = moved.wrapping_add(1);
    }
    let timing = Timing::since(&rt, start, moved)?;
    // Not one of the wakes queued the task.
    if queue.is_empty(&rt) {
        Ok(timing)
    } else {
        Err(Fault::Refused)
    }
}

/// Copies a waker, and drops the copy.
fn waker_clone<R: Runtime + Clock>(
    rt: R,
    alloc: Global,
    realm: &'static Tasks<R>,
    ops: u64,
) -> Result<Timing, Fault> {
    match Waiting::new(rt, alloc, realm) {
        Ok(waiting) => time_waker_clone(rt, &waiting.waker, ops),
        Err(fault) => Err(fault),
    }
}

fn time_waker_clone<R: Runtime + Clock>(
    rt: R,
    waker: &WorkWaker<R>,
    ops: u64,
) -> Result<Timing, Fault> {
    let mut moved = 0u64;
    let start = Instant::now(&rt)?;
    for _ in 0..ops {
        if let Some(copy) = waker.clone() {
            drop(copy);
            moved = moved.wrapping_add(1);
        }
    }
    Timing::since(&rt, start, moved)
}

/// Polls the handle of a task that isn't finished.
fn poll_pending<R: Runtime + Clock>(
    rt: R,
    alloc: Global,
    realm: &'static Tasks<R>,
    ops: u64,
) -> Result<Timing, Fault> {
    match Spawned::new(rt, alloc, realm, Work::Waits) {
        Ok(mut spawned) => time_poll_pending(rt, &mut spawned.task, ops),
        Err(fault) => Err(fault),
    }
}

fn time_poll_pending<R: Runtime + Clock>(
    rt: R,
    task: &mut WorkTask<R>,
    ops: u64,
) -> Result<Timing, Fault> {
    let mut moved = 0u64;
    let start = Instant::now(&rt)?;
    for _ in 0..ops {
        if let Poll::Pending = task.poll(&Awaiter::Outside(Nobody)) {
            moved = moved.wrapping_add(1);
        }
    }
    Timing::since(&rt, start, moved)
}

/// A task with one owner.
type Alone = LocalTask<Work, u64, u64>;

/// How many such tasks take turns.
const ALONE: u64 = 64;

/// As `self_wake`, on tasks with one owner: each operation is a start, a wake and the end of a poll of
/// the next of some tasks.
fn self_wake_alone<R: Clock>(rt: &R, alloc: Global, ops: u64) -> Result<Timing, Fault> {
    let mut tasks: Vec<Alone> = Vec::new(alloc);
    for _ in 0..ALONE {
        tasks.push(LocalTask::new(Work::WakesItself))?;
    }
    let mut moved = 0u64;
    let start = Instant::now(rt)?;
    for number in 0..ops {
        if let Some(task) = tasks.get_mut((number % ALONE) as usize) {
            moved = moved.wrapping_add(turn(task));
        }
    }
    Timing::since(rt, start, moved)
}

/// One poll of the task, in which it is woken. Says how often it was queued by that.
fn turn(task: &mut Alone) -> u64 {
    if !task.is_queued() {
        return 0;
    }
    let Start::Poll(future) = task.start() else {
        return 0;
    };
    let woken = task.wake();
    match task.settle(Back::Pending(future)) {
        Settled::Queue(_) => u64::from(woken.is_none()),
        _ => 0,
    }
}
