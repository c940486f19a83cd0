//! The jobs that are left, and the executor that they are spawned on.
ghost use Rattle.std.specs.Prelude.{All};
ghost use Rattle.jobs.specs.Answers.{IsInRange};

use crate::gate::Gate;
use crate::work::Work;
use crate::{Job, Solved};
use async_executor::{ExRealm, ExStoredTask, ExWaker, Executor, SpawnError};
use async_task::{Future, NoMemory, Poll, Returning, Runtime, TaskError};
use blocking::ThreadWaker;
use concurrent_queue::ConcurrentQueue;
use std::alloc::Global;
use std::sync::Wait;

/// Where the jobs of executors lie. One is enough for a program.
pub type JobRealm<R> = ExRealm<Solved, ThreadWaker, R>;

/// The wakers that workers are polled with.
pub type JobWaker<R> = ExWaker<Solved, ThreadWaker, R>;

/// A job and its number.
#[derive(Clone, Copy, Debug)]
struct Numbered {
    number: u64,
    job: Job,
    ghost in_range: { IsInRange job },
}

/// The jobs that are left, and the executor that they are spawned on.
#[derive(Drop)]
pub struct Site<G: Drop, R: Runtime> {
    rt: R,
    realm: &'static JobRealm<R>,
    gate: G,
    queue: ConcurrentQueue<Numbered>,
    pub(crate) executor: Executor<Work<G>, Solved, ThreadWaker, R>,
}

/// A job that was spawned and is awaited: its handle, and its number.
#[derive(Drop)]
pub(crate) struct Awaited {
    handle: Returning<ExStoredTask>,
    number: u64,
}

/// What a worker finds when it looks for its next job.
pub(crate) enum Next {
    /// The job was spawned, and has to be awaited.
    Begun(Awaited),
    /// None is left.
    NoneLeft,
    /// It found no place on the executor, and is lost.
    Lost,
}

impl<G: Gate + Copy + Drop, R: Runtime> Site<G, R> {
    ghost use Rattle.jobs.specs.Bringing.{BeginsNumber, Gives};

    /// A site with these jobs, numbered from 0, none of which is begun.
    pub fn new(
        rt: R,
        alloc: Global,
        realm: &'static JobRealm<R>,
        jobs: &[Job],
        gate: G,
    ) -> Result<Self, NoMemory>
        requires { All IsInRange jobs.now }
    {
        let Ok(queue) = queue_of(&rt, alloc, jobs) else {
            return Err(NoMemory);
        };
        match Executor::new(rt, alloc, realm, jobs.len().max(1)) {
            Ok(executor) => Ok(Site {
                rt,
                realm,
                gate,
                queue,
                executor,
            }),
            Err(_) => Err(NoMemory),
        }
    }

    /// Polls a begun job that has to be polled, if there is one, and answers whether there was.
    pub fn try_tick(&self) -> bool {
        self.executor.try_tick()
    }

    /// Whether each job that was begun is over.
    pub fn is_empty(&self) -> bool {
        self.executor.is_empty()
    }

    /// Pops a job and spawns it.
    pub(crate) fn begin(&self) -> Result<Next, NoMemory> {
        match self.queue.pop(&self.rt) {
            Ok(numbered) => self.spawn(numbered),
            Err(_) => Ok(Next::NoneLeft),
        }
    }

    /// Spawns a job. It is awaited under the number that it was spawned with.
    fn spawn(&self, numbered: Numbered) -> Result<Next, NoMemory>
        ensures { BeginsNumber numbered.number result }
    {
        let work = Work::new(self.gate, numbered.number, numbered.job);
        match self.executor.spawn(work) {
            Ok(task) => Ok(Next::Begun(Awaited {
                handle: Returning::new(task.store()),
                number: numbered.number,
            })),
            Err(SpawnError::Full(_)) => Ok(Next::Lost),
            Err(SpawnError::NoMemory(_)) => Err(NoMemory),
        }
    }

    /// The job that came back by the handle that is awaited, where its task wasn't closed and it has the number that it was
    /// spawned with. Where it hasn't come back its handle is kept.
    pub(crate) fn await_job(
        &self,
        awaited: &mut Option<Awaited>,
        waker: &JobWaker<R>,
    ) -> Poll<Result<Option<Solved>, NoMemory>>
        ensures { Gives awaited.old awaited.new result }
    {
        let Some(Awaited { handle, number }) = awaited.take() else {
            return Poll::Ready(Ok(None));
        };
        let Some(mut task) = handle.redeem(self.rt, self.realm) else {
            return Poll::Ready(Ok(None));
        };
        match task.poll(waker) {
            Poll::Pending => {
                *awaited = Some(Awaited {
                    handle: Returning::new(task.store()),
                    number,
                });
                Poll::Pending
            }
            Poll::Ready(Ok(solved)) if solved.number == number => Poll::Ready(Ok(Some(solved))),
            Poll::Ready(Ok(_)) => Poll::Ready(Ok(None)),
            Poll::Ready(Err(TaskError::TaskClosed)) => Poll::Ready(Ok(None)),
            Poll::Ready(Err(TaskError::NoMemory)) => Poll::Ready(Err(NoMemory)),
        }
    }
}

impl<G: Drop, R: Runtime> Site<G, R> {
    /// Drops the handle of a job that is awaited no more, which cancels it.
    pub(crate) fn give_up(&self, awaited: Option<Awaited>) {
        if let Some(Awaited { handle, number: _ }) = awaited {
            if let Some(task) = handle.redeem(self.rt, self.realm) {
                drop(task);
            }
        }
    }
}

/// An unbounded queue with these jobs, numbered from 0, which is closed.
fn queue_of<R: Wait>(
    rt: &R,
    alloc: Global,
    jobs: &[Job],
) -> Result<ConcurrentQueue<Numbered>, NoMemory>
    requires { All IsInRange jobs.now }
{
    let queue = ConcurrentQueue::unbounded(alloc);
    for (number, job) in jobs.iter().enumerate() {
        let numbered = Numbered {
            number: number as u64,
            job: *job,
        };
        if queue.push(rt, numbered).is_err() {
            return Err(NoMemory);
        }
    }
    queue.close(rt);
    Ok(queue)
}
