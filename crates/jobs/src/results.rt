//! What came back of one list of jobs.
ghost use Rattle.std.specs.Prelude.{◌≡◌, ◌≢◌, ◌<◌, ℕ, Some, IfOk, IfErr, length, map, slice_get};
ghost use Rattle.jobs.specs.Answers.{answer_of};
ghost use Rattle.jobs.specs.Results.{AreRight, IsBack, IsFirstMissing, once_more};
ghost use Rattle.jobs.specs.declared.errors.JobsError.TheVariants.{Missing, NoMemory};

use crate::errors::JobsError;
use crate::job::{Answer, Job, Solved};
use std::alloc::{AllocError, Global};

/// How often a job came back, and with what.
#[derive(Clone, Copy, Debug)]
pub enum Back {
    Never,
    Once(Answer),
    Often,
}

/// What came back of a list of jobs so far.
#[derive(Drop)]
pub struct Results<'a> {
    jobs: &'a [Job],
    backs: Vec<Back>,
    ghost all: { length backs.items ≡ length jobs.now },
    ghost right: { AreRight jobs.now backs.items },
}

impl<'a> Results<'a> {
    /// Notes of these jobs, of which nothing came back yet.
    pub fn new(alloc: Global, jobs: &'a [Job]) -> Result<Self, AllocError>
        ensures jobs { IfOk result (λ results. results.jobs.now ≡ jobs.now) }
        ensures none { IfOk result (λ results.
            (number : ℕ) → number < length jobs.now → slice_get results.backs.items number ≡ Some Back.Never) }
    {
        let backs = Vec::from_elem(alloc, Back::Never, jobs.len())?;
        Ok(Results { jobs, backs })
    }

    /// Notes that this job came back, where it is one of them.
    pub fn note(&mut self, solved: &Solved)
        ensures jobs { self.new.jobs.now ≡ self.old.jobs.now }
        ensures others { (number : ℕ) → number ≢ solved.now.number →
            slice_get self.new.backs.items number ≡ slice_get self.old.backs.items number }
        ensures this { (back : Back) → slice_get self.old.jobs.now solved.now.number ≡ Some solved.now.job →
            slice_get self.old.backs.items solved.now.number ≡ Some back →
            slice_get self.new.backs.items solved.now.number ≡ Some (once_more solved.now.answer back) }
        ensures no_job { slice_get self.old.jobs.now solved.now.number ≢ Some solved.now.job →
            self.new.backs.items ≡ self.old.backs.items }
    {
        let at = solved.number as usize;
        if at >= self.jobs.len() || self.jobs[at] != solved.job {
            return;
        }
        self.backs[at] = match self.backs[at] {
            Back::Never => Back::Once(solved.answer),
            Back::Once(_) | Back::Often => Back::Often,
        };
    }

    /// The answers in the order of the jobs, or the first job that didn't come back once.
    pub fn in_order(&self, alloc: Global) -> Result<Vec<Answer>, JobsError>
        ensures answers { IfOk result (λ answers. answers.items ≡ map answer_of self.now.jobs.now) }
        ensures once { IfOk result (λ answers. (number : ℕ) → number < length self.now.jobs.now →
            IsBack self.now.backs.items number) }
        ensures missing { (number : ℕ) → result ≡ Err (Missing number) → IsFirstMissing self.now.backs.items number }
        ensures fault { IfErr result (λ fault. (fault ≢ NoMemory) → (number : ℕ) × (fault ≡ Missing number)) }
    {
        let Ok(mut all) = Vec::with_capacity(alloc, self.backs.len()) else {
            return Err(JobsError::NoMemory);
        };
        for back in &self.backs {
            let Back::Once(answer) = back else {
                return Err(JobsError::Missing(all.len() as u64));
            };
            if all.push(*answer).is_err() {
                return Err(JobsError::NoMemory);
            }
        }
        Ok(all)
    }
}
