//! Texts of executors of one thread. What they count is as of an `Executor`.
use crate::local::door::{House, Visitor, new_door};
use crate::local::moving::{Never, Ready};
use async_task::{Future, Nobody, Poll, Runtime, Wake};
use local_executor::{LocalExWaker, LocalExecutor, LocalRun, StaticLocalExecutor};
use std::alloc::Global;
use std::fmt::Debug;
use std::process::Abort;
use std::random::RandomSource;
use std::sync::atomic::{AtomicBool, Ordering};
use std::sync::{Arc, Wait};
use std::thread::{self, Threads};

type Plain<R> = LocalExecutor<Ready, u64, Nobody, R>;

type Fixed<R> = StaticLocalExecutor<Ready, u64, Nobody, R>;

type TestRun<'a, R> = LocalRun<'a, Ready, u64, Nobody, R, Never>;

/// Whether this is its text of Debug.
fn is_shown<X: Debug>(alloc: Global, value: &X, want: &str) -> bool {
    match format!(in alloc; "{value:?}") {
        Ok(text) => text.as_str() == want,
        Err(_) => false,
    }
}

/// Whether each of so many polls of a run is pending.
fn waits<R: Wait + Copy + Drop>(run: &mut TestRun<'_, R>, polls: u64) -> bool {
    for _ in 0..polls {
        if run.poll(&LocalExWaker::Outside(Nobody)) != Poll::Pending {
            return false;
        }
    }
    true
}

/// Whether the executor took so many futures, each of which goes on without its handle.
fn takes<R: Wait + Copy + Drop>(executor: &Plain<R>, count: u64) -> bool {
    for number in 0..count {
        match executor.spawn(Ready(number)) {
            Ok(handle) => handle.detach(),
            Err(_) => return false,
        }
    }
    true
}

/// One poll of a run takes two hundred of a thousand. With the first it takes half of what is left of the global queue to
/// itself, and at each 64th as many as its own queue of 512 places then has room for. A run that wasn't polled isn't listed.
fn shows_what_runs_keep<R: Abort + RandomSource + Wait + Copy + Drop>(
    rt: R,
    alloc: Global,
) -> bool {
    let executor = Plain::new(rt, alloc, 1000).expect(&rt, "memory");
    let all = takes(&executor, 1000);
    let (Ok(mut one), Ok(mut two)) = (executor.run(Never), executor.run(Never)) else {
        return false;
    };
    let fresh =
        "LocalExecutor { active: 1000, global_tasks: 1000, local_runners: [], sleepers: 0 }";
    let is_fresh = is_shown(alloc, &executor, fresh);
    let is_polled = waits(&mut one, 1);
    let busy =
        "LocalExecutor { active: 800, global_tasks: 296, local_runners: [504], sleepers: 0 }";
    let is_busy = is_shown(alloc, &executor, busy);
    let is_polled_on = waits(&mut one, 5);
    let idle = "LocalExecutor { active: 0, global_tasks: 0, local_runners: [0], sleepers: 1 }";
    let is_idle = is_shown(alloc, &executor, idle);
    let is_joined = waits(&mut two, 1);
    let both = "LocalExecutor { active: 0, global_tasks: 0, local_runners: [0, 0], sleepers: 2 }";
    let are_both = is_shown(alloc, &executor, both);
    all & is_fresh & is_polled & is_busy & is_polled_on & is_idle & is_joined & are_both
}

#[test]
fn a_local_executor_shows_what_runs_keep(rt: HostRuntime) {
    assert!(rt; shows_what_runs_keep(rt, rt.alloc()));
}

/// A leak queues each future once more. Neither of a leaked one nor of one that was static from the first are futures counted:
/// their tables have no wakers.
fn shows_no_futures_of_a_static_one<R: Abort + RandomSource + Wait + Copy + Drop>(
    rt: R,
    alloc: Global,
) -> bool {
    let executor = Plain::new(rt, alloc, 3).expect(&rt, "memory");
    let all = takes(&executor, 2);
    let leaked = executor.leak();
    let text = "StaticLocalExecutor { active: 0, global_tasks: 2, local_runners: [], sleepers: 0 }";
    let is_shown_leaked = is_shown(alloc, &leaked, text);
    let fixed = Fixed::new(rt, alloc, 3).expect(&rt, "memory");
    let (Ok(_first), Ok(_second)) = (fixed.spawn(Ready(0)), fixed.spawn(Ready(1))) else {
        return false;
    };
    let Ok(mut run) = fixed.run(Never) else {
        return false;
    };
    let is_shown_fixed = is_shown(alloc, &fixed, text);
    let is_polled = waits(&mut run, 1);
    let idle =
        "StaticLocalExecutor { active: 0, global_tasks: 0, local_runners: [0], sleepers: 1 }";
    let is_shown_idle = is_shown(alloc, &fixed, idle);
    all & is_shown_leaked & is_shown_fixed & is_polled & is_shown_idle
}

#[test]
fn a_static_local_executor_shows_no_futures(rt: HostRuntime) {
    assert!(rt; shows_no_futures_of_a_static_one(rt, rt.alloc()));
}

/// Handles show whether their task is finished.
fn shows_who_is_finished<R: Abort + RandomSource + Wait + Copy + Drop>(
    rt: R,
    alloc: Global,
) -> bool {
    let executor = Plain::new(rt, alloc, 2).expect(&rt, "memory");
    let (Ok(one), Ok(two)) = (executor.spawn(Ready(0)), executor.spawn(Ready(1))) else {
        return false;
    };
    let two = two.fallible();
    let are_fresh = is_shown(alloc, &one, "LocalHandle { is_finished: false }")
        & is_shown(alloc, &two, "LocalFallible { is_finished: false }");
    let ticks = executor.try_tick() & executor.try_tick();
    ticks
        & are_fresh
        & is_shown(alloc, &one, "LocalHandle { is_finished: true }")
        & is_shown(alloc, &two, "LocalFallible { is_finished: true }")
}

#[test]
fn a_local_handle_shows_whether_its_task_is_finished(rt: HostRuntime) {
    assert!(rt; shows_who_is_finished(rt, rt.alloc()));
}

/// Prints the executor again and again until `<locked>` stood in each of these fields, and says whether it came to that.
fn sees_locked<R: Wait + Copy + Drop>(alloc: Global, executor: &House<R>) -> bool {
    let fields = [
        "active: <locked>,",
        "global_tasks: <locked>,",
        "local_runners: <locked>,",
        "sleepers: <locked> }",
    ];
    let mut seen = [false; 4];
    for _ in 0..10_000_000u64 {
        if let Ok(text) = format!(in alloc; "{executor:?}") {
            for number in 0..4 {
                seen[number] = seen[number] | text.contains(fields[number]);
            }
        }
        if seen[0] & seen[1] & seen[2] & seen[3] {
            return true;
        }
    }
    false
}

/// Whether an executor shows `<locked>` where a waker is called on another thread.
fn shows_that_it_is_locked<R: Runtime + Abort + RandomSource + Threads + Send + Sync>(
    rt: R,
    alloc: Global,
) -> bool {
    let executor = House::new(rt, alloc, 1).expect(&rt, "an executor");
    let (door, other) = new_door::<R>(&rt, alloc);
    let Ok(handle) = executor.spawn(Visitor(other)) else {
        return false;
    };
    let has_ticked = executor.try_tick();
    let is_over = Arc::new(alloc, AtomicBool::new(false)).expect(&rt, "memory");
    let told = Arc::try_clone(&is_over).expect(&rt, "memory");
    let waker = door.take();
    let wakes = move || {
        if let Some(waker) = &waker {
            for _ in 0..1_000_000_000u64 {
                if told.load(Ordering::SeqCst) {
                    break;
                }
                waker.wake_by_ref();
            }
        }
    };
    let child = thread::spawn(&rt, wakes).expect(&rt, "a thread");
    let is_seen = sees_locked(alloc, &executor);
    is_over.store(true, Ordering::SeqCst);
    child.join(&rt);
    drop(handle);
    has_ticked & is_seen
}

#[test]
fn a_local_executor_shows_that_it_is_locked(rt: HostRuntime) {
    assert!(rt; shows_that_it_is_locked(rt, rt.alloc()));
}
