use crate::{local, sim, steps};
use async_task::{Future, Runtime};
use std::alloc::AllocGlobal;
use std::random::RandomSource;
use std::rt::Clock;
use std::thread::Threads;
use workloads::executor::{self, Chain, Futures, Waker, Worker};
use workloads::job::{self, JobRealm, JobSite, Open};
use workloads::task::{self, Tasks};
use workloads::work::Work;
use workloads::{Fault, Timing, base, on_queue_of_one, on_shared_queue, wait};

/// The realms in which the tasks lie.
#[derive(Drop)]
pub struct Realms<R: Runtime> {
    pub tasks: &'static Tasks<R>,
    pub futures: &'static Futures<R>,
    pub jobs: &'static JobRealm<R>,
}

/// Does so many operations. What is worked on is made before the clock starts. `L` is a future that awaits another, `P` an
/// executor that threads run, and `J` where jobs are done.
pub fn run<L, P, J, R>(work: Work, rt: &R, realms: &Realms<R>, ops: u64) -> Result<Timing, Fault>
where
    L: Chain<R> + Future<Waker<R>, Output = u64> + Drop,
    P: Worker<R> + Sync + Drop,
    J: JobSite<R, Gate = Open> + Sync + Drop,
    R: Runtime + AllocGlobal + Clock + RandomSource + Threads + Sync,
{
    match work {
        Work::FetchAdd => base::fetch_add(rt, ops),
        Work::MutexLock => base::mutex_lock(rt, ops),
        Work::Queue(shape, way) => on_shared_queue(shape, way, rt, ops),
        Work::Exclusive(shape) => on_queue_of_one(shape, rt, ops),
        Work::MachineStep => steps::run(rt, ops),
        Work::Script(pollers) => sim::lines(rt, pollers, ops),
        Work::Task(work) => task::time(work, *rt, rt.alloc(), realms.tasks, ops),
        Work::Executor(work) => executor::time::<L, P, R>(work, rt, realms.futures, ops),
        Work::Local(work) => local::time(work, rt, ops),
        Work::Wait(work) => wait::time(work, rt, ops),
        Work::Jobs(work) => job::time::<J, R>(work, rt, realms.jobs, ops),
    }
}
