//! Where jobs are done, as code over any runtime type may know it. Rattle proves no calls of such code with what holds handles,
//! nor threads that call what holds a realm. So the code is generic over a `JobSite`, and a program that has its runtime value
//! says which that is.
ghost use Rattle.std.specs.Prelude.{All};
ghost use Rattle.jobs.specs.Answers.{IsInRange};

use crate::brought::Brought;
use crate::desk::Awaits;
use crate::gate::Gate;
use crate::site::{JobRealm, JobWaker, Site};
use crate::site_desk::SiteDesk;
use crate::worker::Worker;
use crate::{Job, Solved};
use async_task::{NoMemory, Runtime};
use std::alloc::Global;
use std::sync::Wait;
use workers::run_until;

/// What a worker's thread does.
pub trait Labor<R: Wait> {
    ghost use Rattle.std.specs.Prelude.{IfOk, Vec};
    ghost use Rattle.std.specs.Global.{Global};
    ghost use Rattle.jobs.specs.declared.job.Solved.{Solved};

    /// What threads of this place come back with: jobs that were begun there, each by a handle of its own.
    ghost brings: { Self → Vec Solved Global → Type 0 };

    /// Begins jobs until none is left, and answers those that came back to it.
    fn work(&self, rt: &R, seed: u64) -> Result<Vec<Solved>, NoMemory>
        ensures { IfOk result (brings self.now) };
}

/// Where jobs are done.
pub trait JobSite<R: Runtime>: Labor<R> {
    /// What each job meets at its first poll.
    type Gate: Gate;

    /// A place with these jobs, numbered from 0, none of which is begun.
    fn new(
        rt: R,
        alloc: Global,
        realm: &'static JobRealm<R>,
        jobs: &[Job],
        gate: Self::Gate,
    ) -> Result<Self, NoMemory>
        requires { All IsInRange jobs.now };
}

/// A place whose threads run one executor, each until its worker is ready.
#[derive(Drop)]
pub struct Workplace<G: Drop, R: Runtime> {
    alloc: Global,
    site: Site<G, R>,
}

/// The place that a program names.
pub type JobPlace<G, R> = Workplace<G, R>;

impl<G: Gate + Copy + Drop, R: Runtime> JobSite<R> for Workplace<G, R> {
    type Gate = G;

    fn new(
        rt: R,
        alloc: Global,
        realm: &'static JobRealm<R>,
        jobs: &[Job],
        gate: G,
    ) -> Result<Self, NoMemory>
        requires { All IsInRange jobs.now }
    {
        match Site::new(rt, alloc, realm, jobs, gate) {
            Ok(site) => Ok(Workplace { alloc, site }),
            Err(refused) => Err(refused),
        }
    }
}

impl<G: Gate + Copy + Drop, R: Runtime> Labor<R> for Workplace<G, R> {
    ghost use Rattle.jobs.specs.Bringing.{HaveCome};

    ghost brings = { λ place solved. HaveCome solved };

    fn work(&self, rt: &R, seed: u64) -> Result<Vec<Solved>, NoMemory> {
        match self.run_desk(rt, seed, SiteDesk::at(&self.site)) {
            Ok(brought) => Ok(brought.into_solved()),
            Err(refused) => Err(refused),
        }
    }
}

impl<G: Gate + Copy + Drop, R: Runtime> Workplace<G, R> {
    /// Runs the executor until this desk's worker is done.
    fn run_desk<D: Awaits<JobWaker<R>> + Drop>(
        &self,
        rt: &R,
        seed: u64,
        desk: D,
    ) -> Result<Brought<D>, NoMemory> {
        let worker = Worker::at(*rt, self.alloc, desk);
        match run_until(rt, self.alloc, &self.site.executor, seed, worker) {
            Ok(brought) => brought,
            Err(_) => Err(NoMemory),
        }
    }
}
