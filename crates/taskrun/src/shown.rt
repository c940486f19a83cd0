//! How far jobs are, on a terminal.
ghost use Rattle.std.specs.Prelude.{All};
ghost use Rattle.jobs.specs.Answers.{IsInRange};

use async_task::{NoMemory, Runtime};
use jobs::{Gate, Job, JobRealm, JobSite, Labor, Open, Solved};
use std::alloc::Global;
use std::marker::PhantomData;
use std::sync::Wait;

/// From this many jobs on their progress is printed.
const MANY: u64 = 1_000;

/// Prints a line on standard error as the first job and each further tenth of the jobs is begun, where there are many.
#[derive(Clone, Copy)]
pub struct Teller<R> {
    rt: R,
    jobs: u64,
}

impl<R: Eprint> Gate for Teller<R> {
    fn meet(&self, job: u64) {
        if self.jobs >= MANY && job % (self.jobs / 10) == 0 {
            // Where it can't be printed the jobs are done nevertheless.
            let _ = eprintln!(self.rt; "{job} of {} jobs are begun", self.jobs);
        }
    }
}

/// A place that tells how far its jobs are. What is done there is another place's.
#[derive(Drop)]
pub struct Shown<P, R> {
    place: P,
    rt: PhantomData<R>,
}

impl<P: JobSite<R, Gate = Teller<R>>, R: Runtime + Eprint> JobSite<R> for Shown<P, R> {
    type Gate = Open;

    fn new(
        rt: R,
        alloc: Global,
        realm: &'static JobRealm<R>,
        jobs: &[Job],
        _gate: Open,
    ) -> Result<Self, NoMemory>
        requires { All IsInRange jobs.now }
    {
        let teller = Teller {
            rt,
            jobs: jobs.len() as u64,
        };
        match P::new(rt, alloc, realm, jobs, teller) {
            Ok(place) => Ok(Shown {
                place,
                rt: PhantomData,
            }),
            Err(refused) => Err(refused),
        }
    }
}

impl<P: Labor<R>, R: Wait> Labor<R> for Shown<P, R> {
    ghost brings = { λ shown solved. P.brings shown.place solved };

    fn work(&self, rt: &R, seed: u64) -> Result<Vec<Solved>, NoMemory> {
        self.place.work(rt, seed)
    }
}
