//! A join of handles: what a poll of it answers that is refused. It is polled once more then, and goes on with the same.
use async_task::{Future, Poll, Runtime, TaskError};
use executor_refusals::{Ground, LIMIT, TestExecutor, TestWaker, owned};
use refusal_rows::{Bell, Call, Job, Place, Report};
use workers::JoinAll;

/// How many handles are joined: more than a list of outputs has room for at first, and half of what the executor has places for.
const HANDLES: u64 = 6;

type TestJoin<R> = JoinAll<u64, Bell, R>;

/// Joins handles of an executor of its own, and says whether all was as it has to be. The first poll wants room for an
/// output and a copy of the waker; then the futures are ready, and the other wants room behind the outputs that came.
pub fn join<R: Runtime>(ground: &Ground<'_, R>, report: &mut Report) -> bool {
    report.come_to(Place::Executor);
    let Some(executor) = owned(ground, report) else {
        return false;
    };
    let Some(mut all) = spawned(ground, &executor, report) else {
        return false;
    };
    report.come_to(Place::Workers);
    let is_pending = matches!(
        polled(&mut all, ground.waker, Call::Join, report),
        Poll::Pending
    );
    for _ in 0..LIMIT {
        let _ = executor.try_tick();
    }
    match polled(&mut all, ground.waker, Call::JoinRoom, report) {
        Poll::Ready(Ok(outputs)) => is_pending & are_all(&outputs),
        _ => false,
    }
}

/// The join of what was spawned in one call. Where a future is refused, the handles of those before it are dropped, and all are
/// spawned once more.
fn spawned<R: Runtime>(
    ground: &Ground<'_, R>,
    executor: &TestExecutor<R>,
    report: &mut Report,
) -> Option<TestJoin<R>> {
    for _ in 0..2 {
        let drops = ground.drops;
        let mut jobs = (0..HANDLES).map(|name| Job {
            name,
            wakes: 0,
            drops,
        });
        let (handles, spawned) = executor.spawn_many(&mut jobs);
        if spawned.is_ok() {
            return Some(JoinAll::new(ground.rt, ground.alloc, ground.realm, handles));
        }
        report.is_refused(Call::SpawnMany);
    }
    None
}

/// What a poll ends with, which is made once more where it is refused.
fn polled<R: Runtime>(
    all: &mut TestJoin<R>,
    waker: &TestWaker<R>,
    call: Call,
    report: &mut Report,
) -> Poll<Result<Vec<u64>, TaskError>> {
    let polled = all.poll(waker);
    if let Poll::Ready(Err(TaskError::NoMemory)) = polled {
        report.is_refused(call);
        return all.poll(waker);
    }
    polled
}

/// Whether these are the outputs of all, in order.
fn are_all(outputs: &[u64]) -> bool {
    let mut number = 0u64;
    for output in outputs {
        if *output != number {
            return false;
        }
        number = number.saturating_add(1);
    }
    number == HANDLES
}
