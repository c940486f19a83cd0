//! An executor of one's own, of one future: the README of `async_task` shows what stands here. It runs the future, that of
//! `first_task`, as long as that wakes itself, and polls its handle then.
use crate::first_task::Sum;
use async_task::{
    Awaiter, Future, Nobody, Poll, Realm, Returning, Runtime, Schedule, ScheduleInfo, Scheduled,
    StoredRunnable, TaskError, spawn,
};
use std::alloc::{AllocError, Global};
use std::sync::{Arc, Mutex, Wait};
use std::test::Fail;

#[derive(Drop)]
pub struct Turn<R>(Arc<Mutex<Option<Returning<StoredRunnable>>>, Global>, R);

impl<R: Wait + Copy + Drop> Schedule<Scheduled<Sum, u64, Turn<R>, (), Nobody, R>> for Turn<R> {
    fn schedule(&self, job: Scheduled<Sum, u64, Turn<R>, (), Nobody, R>, _info: ScheduleInfo) {
        *self.0.lock(&self.1) = Some(Returning::new(job.store()));
    }
}

pub fn run<R: Runtime>(
    rt: R,
    alloc: Global,
    realm: &'static Realm<Sum, u64, Turn<R>, (), Nobody>,
    future: Sum,
) -> Result<Poll<Result<u64, TaskError>>, AllocError> {
    let queue = Arc::new(alloc, Mutex::new(None))?;
    let next = Arc::try_clone(&queue)?;
    let Ok((runnable, mut task)) = spawn(rt, realm, future, Turn(next, rt)) else {
        return Err(AllocError);
    };
    runnable.schedule();
    for _ in rt.forever() {
        let Some(stored) = queue.lock(&rt).take() else {
            break;
        };
        if let Some(job) = stored.redeem(rt, realm) {
            job.into_runnable().run();
        }
    }
    Ok(task.poll(&Awaiter::Outside(Nobody)))
}

#[test]
fn an_executor_of_one_future_runs_it_to_its_end(rt: HostRuntime) -> Result<(), Fail> {
    let realm = Realm::leak(rt, rt.alloc())?;
    let polled = run(rt, rt.alloc(), realm, Sum { left: 4, sum: 0 })?;
    assert!(rt; matches!(polled, Poll::Ready(Ok(10))));
    Ok(())
}
