//! How far a job is worked out.
ghost use Rattle.std.specs.Prelude.{◌≡◌, ◌+◌, ◌*◌, ◌≤◌, ◌<◌, max, min, IfNone, IfSome};
ghost use Rattle.jobs.specs.Answers.{IsInRange, answer_of, sum_below, terms_of};

use crate::job::{Answer, Job, LARGEST_SUM, Solved, product};

/// How many terms of a sum one step adds.
const TERMS_OF_ONE_STEP: u64 = 1_000;

/// How far a job is worked out.
#[derive(Debug, Drop)]
pub struct Progress {
    number: u64,
    job: Job,
    sum: Sum,
    ghost in_range: { IsInRange job },
    ghost no_further: { sum.next ≤ terms_of job },
}

/// The first terms of 0 + 1 + .. added up.
#[derive(Debug, Drop)]
struct Sum {
    /// The next term.
    next: u64,
    total: u64,
    ghost below: { total ≡ sum_below next },
    ghost few: { next ≤ 1000001 },
}

impl Progress {
    /// Makes the progress of this job, of which nothing is worked out yet.
    pub fn new(number: u64, job: Job) -> Self
        requires { IsInRange job }
        ensures number { result.number ≡ number }
        ensures job { result.job ≡ job }
        ensures none { result.sum.next ≡ 0 }
    {
        Progress {
            number,
            job,
            sum: Sum { next: 0, total: 0 },
        }
    }

    /// The number of the job.
    pub fn number(&self) -> u64
        ensures { result ≡ self.now.number }
    {
        self.number
    }

    /// Works out a product, or adds the next 1,000 terms of a sum, or what is left of them. Answers the job with its answer, once
    /// that is there.
    pub fn step(&mut self) -> Option<Solved>
        ensures solved { IfSome result (λ solved.
            (solved.number ≡ self.old.number) × (solved.job ≡ self.old.job)) }
        ensures more { IfNone result ((self.new.sum.next ≡ self.old.sum.next + 1000) × (self.new.sum.next < terms_of self.old.job)) }
        ensures number { self.new.number ≡ self.old.number }
        ensures job { self.new.job ≡ self.old.job }
    {
        match self.job {
            Job::Mul(a, b) => Some(self.solved(product(a, b))),
            Job::Sum(last) => {
                self.sum.add_terms(last);
                if self.sum.next <= last {
                    return None;
                }
                Some(self.solved(Answer::Value(self.sum.total)))
            }
        }
    }

    /// The job with its answer.
    fn solved(&self, answer: Answer) -> Solved
        requires { answer ≡ answer_of self.now.job }
        ensures number { result.number ≡ self.now.number }
        ensures job { result.job ≡ self.now.job }
    {
        Solved {
            number: self.number,
            job: self.job,
            answer,
        }
    }
}

impl Sum {
    #[tactic(auto, using(crate::proofs::Sums::sum_below_few))]
    /// Adds the next terms, at most those of one step, and none past the last.
    fn add_terms(&mut self, last: u64)
        requires { last ≤ 1000000 }
        ensures next { self.new.next ≡ max self.old.next (min (self.old.next + 1000) (last + 1)) }
    {
        if self.next > last {
            return;
        }
        let left = last - self.next + 1;
        let count = if left < TERMS_OF_ONE_STEP {
            left
        } else {
            TERMS_OF_ONE_STEP
        };
        self.total += sum_of_terms(self.next, count);
        self.next += count;
    }
}

/// This many terms from this one on, added up: half the sum of the first and the last, for each of them.
fn sum_of_terms(first: u64, count: u64) -> u64
    requires first { first ≤ 1000000 }
    requires count { count ≤ 1000 }
    ensures sum { sum_below first + result ≡ sum_below (first + count) }
    ensures few { result ≤ 1001000 * count }
{
    (count * (2 * first + count) - count) / 2
}
