//! Tasks that threads wake, run, await and cancel at the same time. A loop past its bound fails the test.
use crate::calls::{Stage, holds, same};
use crate::parts::{
    Counts, Tasks, TestTask, TestWaker, drop_cancel, drop_task, drop_waker, next, ran,
};
use async_task::{Future, Poll, Runtime, TaskError, Wake};
use std::alloc::Global;
use std::process::Abort;
use std::sync::Arc;
use std::sync::atomic::AtomicU64;
use std::sync::atomic::Ordering::SeqCst;
use std::thread;

/// How many turns a loop may take.
const MOST_TURNS: u64 = 10_000_000;

/// How often each of two threads wakes the task, and how many handles are awaited.
const ROUNDS: u64 = 1_000;

/// How many tasks are cancelled.
const CANCELS: u64 = 100_000;

/// How many Runnables wait for the thread that runs them.
const MOST_QUEUED: usize = 16;

/// Waits until the counter has come so far.
fn waits_until<R: Abort>(rt: &R, counter: &AtomicU64, least: u64) {
    for _ in 0..MOST_TURNS {
        if counter.load(SeqCst) >= least {
            return;
        }
        thread::yield_now();
    }
    panic!(rt; "a thread has waited in vain");
}

/// Runs each Runnable that is queued, until none is there and the counter has come so far.
fn runs_until<R: Runtime + Abort>(
    rt: R,
    realm: &'static Tasks<R>,
    counts: &Counts,
    counter: &AtomicU64,
    least: u64,
) {
    let mut idle = 0u64;
    for _ in rt.forever() {
        let is_last = counter.load(SeqCst) >= least;
        if let Some(runnable) = next(rt, realm, counts) {
            ran(runnable);
            idle = 0;
        } else if is_last {
            return;
        } else if idle == MOST_TURNS {
            panic!(rt; "a thread has looked in vain for what it is to run");
        } else {
            idle = idle.saturating_add(1);
            thread::yield_now();
        }
    }
    unreachable!()
}

/// Wakes the task once a round, in one of two ways, beside a copy of the waker, and goes on once a poll has begun after the
/// wakes of this round.
fn wakes_each_round<R: Runtime + Abort>(rt: R, waker: TestWaker<R>, counts: Arc<Counts, Global>) {
    for round in 0..ROUNDS {
        let Some(copy) = waker.clone() else {
            panic!(rt; "no copy");
        };
        counts.wakes.fetch_add(1, SeqCst);
        if round % 2 == 0 {
            copy.wake();
        } else {
            waker.wake_by_ref();
            drop_waker(copy);
        }
        let wakes = round.saturating_mul(2).saturating_add(2);
        waits_until(&rt, &counts.noticed, wakes);
    }
}

/// No two polls overlapped, never were there two Runnables, there was a poll for each round and one at most for each wake and
/// for the beginning, and all is dropped once.
fn was_polled_for_its_wakes<R: Runtime + Abort>(stage: &Stage<R>) {
    same(&stage.rt, stage.counts.overlaps.load(SeqCst), 0);
    same(&stage.rt, stage.counts.longest.load(SeqCst), 1);
    let polls = stage.counts.polls.load(SeqCst);
    holds(&stage.rt, (ROUNDS <= polls) & (polls <= 2 * ROUNDS + 1));
    same(&stage.rt, stage.counts.future_drops.load(SeqCst), 1);
    same(&stage.rt, stage.counts.schedule_drops.load(SeqCst), 1);
}

/// Two threads wake a task that nobody awaits, each once a round, while this one runs it: each round ends with a poll that
/// began after its wakes.
#[test]
fn wakes_of_two_threads_meet_a_run(rt: HostRuntime) {
    let stage = Stage::new(rt, rt.alloc(), Tasks::leak(rt, rt.alloc()));
    let (runnable, task) = stage.task(1_000_000, false);
    task.detach();
    let (one, other) = (stage.waker(&runnable), stage.waker(&runnable));
    let (one_s, other_s) = (stage.counts_too(), stage.counts_too());
    ran(runnable);
    let first = thread::spawn(&rt, move || wakes_each_round(rt, one, one_s));
    let second = thread::spawn(&rt, move || wakes_each_round(rt, other, other_s));
    let (realm, counts) = (stage.realm, &stage.counts);
    runs_until(rt, realm, counts, &counts.noticed, 2 * ROUNDS);
    first.expect(&rt, "a thread").join(&rt);
    second.expect(&rt, "a thread").join(&rt);
    // The last waker is gone, so the task is queued once more, to be closed.
    stage.run_what_is_there(2);
    was_polled_for_its_wakes(&stage);
}

/// Whether a poll by a waker that rings here gives the output.
fn makes_output<R: Runtime + Abort>(bell: &Stage<R>, task: &mut TestTask<R>) -> bool {
    match task.poll(&bell.bell(false)) {
        Poll::Ready(output) => {
            same(&bell.rt, output, Ok(3));
            true
        }
        Poll::Pending => false,
    }
}

/// Polls the handle twice while its task may end. Where both are too early the second one's waker is called, and then the
/// output is there. It comes once.
fn awaits<R: Runtime + Abort>(stage: &Stage<R>, task: &mut TestTask<R>) {
    let (first, last) = (stage.counted_apart(), stage.counted_apart());
    if !makes_output(&first, task) && !makes_output(&last, task) {
        waits_until(&stage.rt, &last.counts.rings, 1);
        holds(&stage.rt, makes_output(&last, task));
    }
    stage.poll(
        task,
        &stage.bell(false),
        Poll::Ready(Err(TaskError::TaskClosed)),
    );
}

/// Handles are polled while another thread ends their tasks.
#[test]
fn a_handle_is_awaited_while_its_task_ends(rt: HostRuntime) {
    let stage = Stage::new(rt, rt.alloc(), Tasks::leak(rt, rt.alloc()));
    let (realm, counts) = (stage.realm, stage.counts_too());
    let runs = move || runs_until(rt, realm, &counts, &counts.polls, ROUNDS);
    let runner = thread::spawn(&rt, runs);
    for _ in 0..ROUNDS {
        let (runnable, mut task) = stage.task(0, false);
        runnable.schedule();
        awaits(&stage, &mut task);
        drop_task(task);
    }
    runner.expect(&rt, "a thread").join(&rt);
    stage.seen((ROUNDS, ROUNDS, ROUNDS, ROUNDS));
}

/// A task is queued, and its handle is given up at once, in one of three ways. Where many are queued one is run here.
fn is_given_up<R: Runtime + Abort>(stage: &Stage<R>, number: u64) {
    let (runnable, task) = stage.task(number % 2, true);
    runnable.schedule();
    match number % 3 {
        0 => drop_task(task),
        1 => drop_cancel(task.cancel()),
        _ => {
            let mut cancel = task.cancel();
            let _ = cancel.poll(&stage.bell(false));
            drop_cancel(cancel);
        }
    }
    let queued = stage.counts.queue.lock(&stage.rt).len();
    if queued > MOST_QUEUED {
        stage.run_what_is_there(1);
    }
}

/// Tasks are cancelled while another thread runs them: each future is dropped once.
#[test]
fn a_cancel_meets_a_run(rt: HostRuntime) {
    let stage = Stage::new(rt, rt.alloc(), Tasks::leak(rt, rt.alloc()));
    let (realm, counts) = (stage.realm, stage.counts_too());
    let runs = move || runs_until(rt, realm, &counts, &counts.future_drops, CANCELS);
    let runner = thread::spawn(&rt, runs);
    for number in 0..CANCELS {
        is_given_up(&stage, number);
    }
    runner.expect(&rt, "a thread").join(&rt);
    same(&rt, stage.counts.future_drops.load(SeqCst), CANCELS);
    same(&rt, stage.counts.schedule_drops.load(SeqCst), CANCELS);
}
