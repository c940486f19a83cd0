//! A queue of tasks that are to be run: what it refuses, what it closes, and that it runs what it accepts beside another thread.
use crate::calls::{holds, same};
use crate::parts::Sum;
use async_task::{Awaiter, Future, Nobody, Poll, Realm, Runtime, TaskError};
use ready_queue::{Places, QueueRunnable, QueueTask, ReadyQueue, SpawnError};
use std::process::Abort;
use std::test::Fail;
use std::thread;

type TestQueue<R> = ReadyQueue<Sum, u64, Nobody, R>;

type TestTask<R> = QueueTask<Sum, u64, Nobody, R>;

fn spawned<R: Runtime + Abort>(rt: &R, queue: &TestQueue<R>, left: u64) -> TestTask<R> {
    match queue.spawn(Sum { left, sum: 0 }) {
        Ok(task) => task,
        Err(_) => panic!(rt; "refused"),
    }
}

/// How a future that is Pending so often is refused: it comes back.
fn is_refused<R: Runtime + Abort>(rt: &R, queue: &TestQueue<R>, left: u64, is_full: bool) {
    match queue.spawn(Sum { left, sum: 0 }) {
        Ok(_) => panic!(rt; "accepted"),
        Err(SpawnError::Full(back)) => same(rt, (is_full, back.left), (true, left)),
        Err(SpawnError::Closed(back)) => same(rt, (is_full, back.left), (false, left)),
        Err(SpawnError::NoMemory(_)) => panic!(rt; "memory"),
    }
}

fn gives<R: Runtime + Abort>(rt: &R, task: &mut TestTask<R>, want: Poll<Result<u64, TaskError>>) {
    same(rt, task.poll(&Awaiter::Outside(Nobody)), want);
}

fn run<R: Runtime>(runnable: QueueRunnable<Sum, u64, Nobody, R>) {
    runnable.run();
}

const CLOSED: Poll<Result<u64, TaskError>> = Poll::Ready(Err(TaskError::TaskClosed));

/// A full queue refuses a future, also while its task stands in no queue and after a run that left it pending, until that one's
/// future is dropped.
#[test]
fn a_full_queue_refuses(rt: HostRuntime) -> Result<(), Fail> {
    let (realm, places) = (Realm::leak(rt, rt.alloc())?, Places::leak(rt.alloc(), 1)?);
    let queue = ReadyQueue::new(rt, realm, places);
    let first = spawned(&rt, &queue, 1);
    is_refused(&rt, &queue, 5, true);
    let runnable = queue.next().expect(&rt, "a task");
    is_refused(&rt, &queue, 5, true);
    run(runnable);
    is_refused(&rt, &queue, 5, true);
    first.detach();
    queue.run();
    let mut second = spawned(&rt, &queue, 0);
    queue.run();
    gives(&rt, &mut second, Poll::Ready(Ok(0)));
    holds(&rt, queue.next().is_none());
    Ok(())
}

/// A closed queue has closed what it had, closes a task that is woken, and refuses a future.
#[test]
fn a_closed_queue_closes_its_tasks(rt: HostRuntime) -> Result<(), Fail> {
    let (realm, places) = (Realm::leak(rt, rt.alloc())?, Places::leak(rt.alloc(), 2)?);
    let queue = ReadyQueue::new(rt, realm, places);
    let mut first = spawned(&rt, &queue, 1);
    let runnable = queue.next().expect(&rt, "a task");
    let mut second = spawned(&rt, &queue, 0);
    gives(&rt, &mut second, Poll::Pending);
    queue.close();
    gives(&rt, &mut second, CLOSED);
    run(runnable);
    gives(&rt, &mut first, CLOSED);
    is_refused(&rt, &queue, 5, false);
    Ok(())
}

/// How many futures each of two threads hands in.
const ROUNDS: u64 = 20_000;

/// How often a future is handed in, and its handle polled, before the test gives up.
const MOST_TURNS: u64 = 1_000_000;

/// Hands a future that gives way once in, once there is room for it, or says that none came.
fn handed_in<R: Runtime>(queue: &TestQueue<R>) -> Option<TestTask<R>> {
    for _ in 0..MOST_TURNS {
        match queue.spawn(Sum { left: 1, sum: 0 }) {
            Ok(task) => return Some(task),
            Err(_) => thread::yield_now(),
        }
    }
    None
}

/// Hands a future in, and says whether it was accepted and run to its end.
fn is_run<R: Runtime>(queue: &TestQueue<R>) -> bool {
    let Some(mut task) = handed_in(queue) else {
        return false;
    };
    for _ in 0..MOST_TURNS {
        queue.run();
        match task.poll(&Awaiter::Outside(Nobody)) {
            Poll::Ready(output) => return output == Ok(1),
            Poll::Pending => thread::yield_now(),
        }
    }
    false
}

/// Whether each of so many futures, handed in one after the other, is accepted and run to its end.
fn are_run<R: Runtime>(queue: &TestQueue<R>) -> bool {
    for _ in 0..ROUNDS {
        if !is_run(queue) {
            return false;
        }
    }
    true
}

/// Two threads hand in futures where there is room for one: each that is accepted is run to its end.
#[test]
fn what_is_accepted_beside_another_thread_is_run(rt: HostRuntime) -> Result<(), Fail> {
    let (realm, places) = (Realm::leak(rt, rt.alloc())?, Places::leak(rt.alloc(), 1)?);
    let queue = ReadyQueue::new(rt, realm, places);
    let both = thread::join(&rt, || are_run(&queue), || are_run(&queue));
    same(&rt, both, (true, true));
    Ok(())
}
