//! Lists of jobs: their text read, and the jobs done by several workers.
mod list;
mod parsing;
mod running;

use crate::work::JobWork;
use crate::{Fault, Timing};
use async_task::Runtime;
pub use jobs::{JobPlace, JobRealm, JobSite, Open};
use std::alloc::AllocGlobal;
use std::rt::Clock;
use std::thread::Threads;

/// Does so many operations on lists of jobs, whose tasks lie in this realm. `P` is where jobs are done.
pub fn time<P, R: Runtime + AllocGlobal + Clock + Threads + Sync>(
    work: JobWork,
    rt: &R,
    realm: &'static JobRealm<R>,
    ops: u64,
) -> Result<Timing, Fault>
where
    P: JobSite<R, Gate = Open> + Sync + Drop,
{
    match work {
        JobWork::Parse => parsing::parse(rt, ops),
        JobWork::Run(workers) => running::run::<P, R>(rt, realm, workers.count(), ops),
    }
}
