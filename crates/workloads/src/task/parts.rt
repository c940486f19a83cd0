//! What the work on tasks is done with: futures, the queue that their tasks are put in, and tasks that wait there. What
//! holds a task is matched on and not asked with `?`, which has no proof where a `'static` reference is inside.
use crate::Fault;
use async_task::{
    Future, Nobody, Poll, Realm, Returning, Runnable, Runtime, Schedule, ScheduleInfo, Scheduled,
    StoredRunnable, Task, TaskWaker, Wake, spawn,
};
use concurrent_queue::ConcurrentQueue;
use std::alloc::Global;
use std::sync::{Arc, Wait};

/// A future.
#[derive(Drop)]
pub enum Work {
    /// It gives this number at its first poll.
    Ready(u64),
    /// It never gives an output.
    Waits,
    /// Nor does this one, but it wakes itself at each poll.
    WakesItself,
}

impl<K: Wake> Future<K> for Work {
    type Output = u64;

    fn poll(&mut self, waker: &K) -> Poll<u64> {
        match self {
            Work::Ready(number) => Poll::Ready(*number),
            Work::Waits => Poll::Pending,
            Work::WakesItself => {
                waker.wake_by_ref();
                Poll::Pending
            }
        }
    }
}

/// Where tasks lie that are to be run.
pub type Queue = Arc<ConcurrentQueue<Returning<StoredRunnable>>, Global>;

/// The way of a task to its queue.
#[derive(Drop)]
pub struct Line<R>(Queue, R);

type Job<R> = Scheduled<Work, u64, Line<R>, (), Nobody, R>;

impl<R: Wait + Copy + Drop> Schedule<Job<R>> for Line<R> {
    fn schedule(&self, job: Job<R>, _info: ScheduleInfo) {
        // One that is refused goes back to its realm.
        let _ = self.0.push(&self.1, Returning::new(job.store()));
    }
}

/// Where the tasks lie.
pub type Tasks<R> = Realm<Work, u64, Line<R>, (), Nobody>;

/// A task that is to be run.
pub type WorkRunnable<R> = Runnable<Work, u64, Line<R>, (), Nobody, R>;

/// The handle of a task.
pub type WorkTask<R> = Task<Work, u64, Line<R>, (), Nobody, R>;

/// A waker of a task.
pub type WorkWaker<R> = TaskWaker<Work, u64, Line<R>, (), Nobody, R>;

/// A queue with nothing in it.
pub fn empty_queue(alloc: Global) -> Result<Queue, Fault> {
    Ok(Arc::new(alloc, ConcurrentQueue::unbounded(alloc))?)
}

/// Spawns a task that is put in this queue.
pub fn spawn_to<R: Runtime>(
    rt: R,
    realm: &'static Tasks<R>,
    queue: &Queue,
    work: Work,
) -> Result<(WorkRunnable<R>, WorkTask<R>), Fault> {
    let Ok(queue) = Arc::try_clone(queue) else {
        return Err(Fault::NoMemory);
    };
    match spawn(rt, realm, work, Line(queue, rt)) {
        Ok(both) => Ok(both),
        Err(_) => Err(Fault::NoMemory),
    }
}

/// Runs the task.
pub fn run<R: Runtime>(runnable: WorkRunnable<R>) -> bool {
    runnable.run()
}

/// Runs the task that is first in the queue. The answer is that of its run, or `None` where no
/// task is there.
pub fn run_next<R: Runtime>(
    rt: R,
    realm: &'static Tasks<R>,
    queue: &ConcurrentQueue<Returning<StoredRunnable>>,
) -> Option<bool> {
    match queue.pop(&rt) {
        Ok(stored) => match stored.redeem(rt, realm) {
            Some(job) => Some(run(job.into_runnable())),
            None => None,
        },
        Err(_) => None,
    }
}

/// A task that is to be run first, and the queue that it is put in.
#[derive(Drop)]
pub struct Spawned<R: Runtime> {
    pub queue: Queue,
    pub runnable: WorkRunnable<R>,
    pub task: WorkTask<R>,
}

impl<R: Runtime> Spawned<R> {
    pub fn new(
        rt: R,
        alloc: Global,
        realm: &'static Tasks<R>,
        work: Work,
    ) -> Result<Spawned<R>, Fault> {
        let Ok(queue) = empty_queue(alloc) else {
            return Err(Fault::NoMemory);
        };
        match spawn_to(rt, realm, &queue, work) {
            Ok((runnable, task)) => Ok(Spawned {
                queue,
                runnable,
                task,
            }),
            Err(fault) => Err(fault),
        }
    }
}

/// A task that waits, and a waker of it.
#[derive(Drop)]
pub struct Waiting<R: Runtime> {
    pub spawned: Spawned<R>,
    pub waker: WorkWaker<R>,
}

impl<R: Runtime> Waiting<R> {
    pub fn new(rt: R, alloc: Global, realm: &'static Tasks<R>) -> Result<Waiting<R>, Fault> {
        match Spawned::new(rt, alloc, realm, Work::Waits) {
            Ok(spawned) => match spawned.runnable.waker() {
                Ok(waker) => Ok(Waiting { spawned, waker }),
                Err(_) => Err(Fault::Refused),
            },
            Err(fault) => Err(fault),
        }
    }
}
