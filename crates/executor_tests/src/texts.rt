//! Texts of an executor and of errors, and what may move to other threads or be shared with them.
use crate::parts::{Job, TestRealm, Work};
use crate::stage::{MOST_TURNS, Planned, Stage, TestKind};
use async_executor::{NoMemory, RunError, SpawnError};
use async_task::Runtime;
use std::alloc::Global;
use std::fmt::Debug;
use std::process::Abort;
use std::sync::atomic::AtomicBool;
use std::sync::atomic::Ordering::SeqCst;
use std::test::Fail;
use std::thread;

/// Whether this is its text of Debug.
fn is_shown<X: Debug>(alloc: Global, value: &X, want: &str) -> bool {
    match format!(in alloc; "{value:?}") {
        Ok(text) => text.as_str() == want,
        Err(_) => false,
    }
}

/// Its text has the entries of the table, the tasks of the global queue and of each run's own, and how many sleep. So it
/// shows what one poll of a run takes of a thousand: it polls two hundred. With the first it takes half of what is left of the
/// global queue to itself, and at each 64th as many as its own queue of 512 places then has room for. A static executor's table
/// has no wakers to be counted.
#[test]
fn the_text_of_an_executor(rt: HostRuntime) -> Result<(), Fail> {
    let realm = TestRealm::leak(rt, rt.alloc())?;
    let stage = Stage::<Job<_>, _>::new(rt, rt.alloc(), realm, false, 1000);
    stage.spawn_detached(stage.ready(0));
    let fresh = "Executor { active: 1, global_tasks: 1, local_runners: [], sleepers: 0 }";
    let is_shown_fresh = is_shown(rt.alloc(), stage.owned(), fresh);
    stage.spawn_ready(1, 1000);
    let mut run = stage.run(Work::Pend, 0);
    stage.poll(&mut run);
    let busy = "Executor { active: 800, global_tasks: 296, local_runners: [504], sleepers: 0 }";
    let is_shown_busy = is_shown(rt.alloc(), stage.owned(), busy);
    stage.poll_often(&mut run, 5);
    let idle = "Executor { active: 0, global_tasks: 0, local_runners: [0], sleepers: 1 }";
    let is_shown_idle = is_shown(rt.alloc(), stage.owned(), idle);
    drop(run);
    let fixed = Stage::<Job<_>, _>::new(rt, rt.alloc(), realm, true, 1);
    fixed.spawn_detached(fixed.ready(0));
    let lasting = "StaticExecutor { active: 0, global_tasks: 1, local_runners: [], sleepers: 0 }";
    let is_shown_lasting = match &fixed.executor {
        TestKind::Static(executor) => is_shown(rt.alloc(), executor, lasting),
        TestKind::Owned(_) => false,
    };
    assert!(rt; is_shown_fresh & is_shown_busy & is_shown_idle & is_shown_lasting);
    Ok(())
}

/// Uses each lock of the executor again and again until it is asked to stop, and answers whether it was.
fn use_locks<F: Planned<R>, R: Runtime + Abort>(stage: &Stage<F, R>, is_over: &AtomicBool) -> bool {
    for _ in 0..MOST_TURNS {
        if is_over.load(SeqCst) {
            return true;
        }
        let mut run = stage.run(Work::Pend, 0);
        stage.spawn_detached(stage.ready(0));
        stage.poll(&mut run);
    }
    false
}

/// Prints the value again and again until `<locked>` stood in each of the three fields that are under a lock, and says
/// whether it came to that.
fn sees_each_lock<X: Debug>(alloc: Global, value: &X, is_over: &AtomicBool) -> bool {
    let fields = [
        "active: <locked>,",
        "local_runners: <locked>,",
        "sleepers: <locked> }",
    ];
    let mut seen = [false; 3];
    for _ in 0..MOST_TURNS {
        if let Ok(text) = format!(in alloc; "{value:?}") {
            for number in 0..3 {
                seen[number] = seen[number] | text.contains(fields[number]);
            }
        }
        if seen[0] & seen[1] & seen[2] {
            break;
        }
    }
    is_over.store(true, SeqCst);
    seen[0] & seen[1] & seen[2]
}

/// The text waits for no lock: `<locked>` stands for what is under one that isn't free.
#[test]
fn the_text_of_an_executor_has_locked_for_what_is_in_use(rt: HostRuntime) -> Result<(), Fail> {
    let realm = TestRealm::leak(rt, rt.alloc())?;
    let stage = Stage::<Job<_>, _>::new(rt, rt.alloc(), realm, false, 2);
    let is_over = AtomicBool::new(false);
    let (used, seen) = thread::join(
        &rt,
        || use_locks(&stage, &is_over),
        || sees_each_lock(rt.alloc(), stage.owned(), &is_over),
    );
    assert!(rt; used & seen);
    Ok(())
}

fn is_plain<X: Clone + Copy + PartialEq + Eq + Debug>(value: X) -> X {
    value
}

/// Errors are compared, copied and shown, and that of a spawn has the future.
fn are_errors_plain(alloc: Global) -> bool {
    let are_shown = is_shown(alloc, &is_plain(RunError::NoMemory), "NoMemory")
        & is_shown(alloc, &is_plain(RunError::Finished), "Finished")
        & is_shown(alloc, &is_plain(NoMemory), "NoMemory")
        & is_shown(alloc, &SpawnError::Full(5), "Full(5)")
        & is_shown(alloc, &SpawnError::NoMemory(5), "NoMemory(5)");
    are_shown & (SpawnError::Full(5).into_inner() == 5)
}

#[test]
fn errors_are_copied_compared_and_shown(rt: HostRuntime) {
    assert!(rt; are_errors_plain(rt.alloc()));
}

fn moves<X: Send>(_value: &X) {}

fn moves_and_is_shared<X: Send + Sync>(_value: &X) {}

/// An executor moves to other threads and is shared with them, ticks and runs move.
#[test]
fn executors_are_shared_and_ticks_and_runs_move(rt: HostRuntime) -> Result<(), Fail> {
    let realm = TestRealm::leak(rt, rt.alloc())?;
    let stage = Stage::<Job<_>, _>::new(rt, rt.alloc(), realm, false, 2);
    moves_and_is_shared(stage.owned());
    moves(&stage.tick());
    moves(&stage.run(Work::Pend, 0));
    Ok(())
}
