//! What queues and lists keep of a task, what a schedule value does with a task that it is given, and tasks of two realms.
use crate::calls::{Stage, holds, same};
use crate::parts::{Bell, Countdown, Line, Tasks, TestRunnable, drop_task};
use async_task::{Awaiter, Due, Poll, Returning, Runtime, ScheduleInfo, TaskError, close_returned};
use std::process::Abort;

const IDLE: ScheduleInfo = ScheduleInfo {
    woken_while_running: false,
};

type TestDue<R> = Due<Countdown, u64, Line<R>, u64, Bell, R>;

/// The Runnable that has to be scheduled, whose task was woken while nobody polled it.
fn idle<R: Runtime + Abort>(stage: &Stage<R>, due: Option<TestDue<R>>) -> TestRunnable<R> {
    match due {
        Some(Due { runnable, info }) => {
            same(&stage.rt, info, IDLE);
            runnable.into_runnable()
        }
        None => panic!(stage.rt; "nothing is owed"),
    }
}

/// A stored waker wakes its task, or is dropped: a wake, and the drop of the last waker of a detached task, answer the task
/// that has to be queued.
#[test]
fn a_stored_waker_wakes_its_task(rt: HostRuntime) {
    let stage = Stage::new(rt, rt.alloc(), Tasks::leak(rt, rt.alloc()));
    let (runnable, task) = stage.task(9, false);
    let (one, two) = (stage.waker(&runnable), stage.waker(&runnable));
    stage.run(runnable);
    let due = Returning::new(one.store()).wake(rt, stage.realm);
    stage.run(idle(&stage, due));
    task.detach();
    stage.seen((2, 0, 0, 0));
    let due = Returning::new(two.store()).release(rt, stage.realm);
    stage.run(idle(&stage, due));
    stage.seen((2, 0, 1, 1));
}

/// A task that its schedule value closes: its future is dropped, and the task that awaits it has to be scheduled.
#[test]
fn a_task_is_closed_by_its_schedule_value(rt: HostRuntime) {
    let stage = Stage::new(rt, rt.alloc(), Tasks::leak(rt, rt.alloc()));
    let others = stage.counted_apart();
    let (awaiting, _awaiting_task) = others.task(9, false);
    let (awaited, mut task) = stage.task(9, false);
    let waker = Awaiter::Task(others.waker(&awaiting));
    stage.run(awaiting);
    stage.poll(&mut task, &waker, Poll::Pending);
    stage.run(idle(&stage, awaited.into_scheduled().close()));
    stage.seen((0, 0, 1, 0));
    others.seen((2, 0, 0, 0));
    stage.poll(&mut task, &waker, Poll::Ready(Err(TaskError::TaskClosed)));
    drop_task(task);
    stage.seen((0, 0, 1, 1));
}

/// What is dropped where it rests goes back to its realm: a Runnable is closed there, a waker and a handle dropped.
#[test]
fn what_is_let_go_is_closed_by_its_realm(rt: HostRuntime) {
    let stage = Stage::new(rt, rt.alloc(), Tasks::leak(rt, rt.alloc()));
    let (runnable, task) = stage.task(9, false);
    let waker = stage.waker(&runnable);
    drop(Returning::new(runnable.into_scheduled().store()));
    drop(Returning::new(waker.store()));
    drop(Returning::new(task.store()));
    stage.seen((0, 0, 0, 0));
    close_returned(rt, stage.realm);
    stage.seen((0, 0, 1, 1));
    close_returned(rt, stage.realm);
    stage.seen((0, 0, 1, 1));
}

/// What was stored of a task of another realm isn't found here, though a task has its place. Its waker can't be kept by a handle:
/// it is called at once.
#[test]
fn a_task_of_another_realm_is_woken_at_once(rt: HostRuntime) {
    let here = Stage::new(rt, rt.alloc(), Tasks::leak(rt, rt.alloc()));
    let other = Stage::new(rt, rt.alloc(), Tasks::leak(rt, rt.alloc()));
    let (awaiting, _awaiting_task) = other.task(9, false);
    let (awaited, mut task) = here.task(0, false);
    let stored = Returning::new(other.waker(&awaiting).store());
    holds(&rt, stored.redeem(rt, here.realm).is_none());
    let waker = Awaiter::Task(other.waker(&awaiting));
    other.run(awaiting);
    here.poll(&mut task, &waker, Poll::Pending);
    other.seen((1, 1, 0, 0));
    here.run(awaited);
    other.seen((1, 1, 0, 0));
    here.seen((1, 0, 1, 0));
}

/// A task that lies among the sleepers of its own queue is queued behind the one that is pushed.
#[test]
fn a_push_wakes_a_task_of_the_same_queue(rt: HostRuntime) {
    let stage = Stage::new(rt, rt.alloc(), Tasks::leak(rt, rt.alloc()));
    let (sleeper, _sleeping) = stage.task(9, false);
    let (runnable, _task) = stage.task(9, false);
    let waker = Returning::new(stage.waker(&sleeper).store());
    holds(&rt, stage.counts.sleepers.lock(&rt).push(waker).is_ok());
    stage.run(sleeper);
    runnable.schedule();
    stage.seen((1, 2, 0, 0));
    stage.run_next();
    stage.run_next();
    stage.seen((3, 2, 0, 0));
}
