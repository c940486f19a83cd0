//! The list of jobs that is worked on: half of it sums of a number below 5,000, half of it products.
ghost use Rattle.std.specs.Prelude.{◌<◌, ◌≤◌, All, IfOk, length};
ghost use Rattle.jobs.specs.Answers.{IsInRange};

use jobs::Job;
use std::alloc::{AllocError, Global};

/// How many jobs there are in one round.
pub const JOBS: u64 = 100_000;

/// How large the numbers of the sums are not.
const SUMS: u64 = 5_000;

/// The job of this number.
pub fn job(number: u64) -> Job
    ensures { IsInRange result }
{
    if number % 2 == 0 {
        Job::Sum(number % SUMS)
    } else {
        Job::Mul(number, 3)
    }
}

/// So many jobs.
pub fn jobs(alloc: Global, count: u64) -> Result<Vec<Job>, AllocError>
    requires { count ≤ 100000 }
    ensures { IfOk result (λ list. All IsInRange list.items × (length list.items ≤ 100000)) }
{
    let mut list = Vec::new(alloc);
    for number in 0..count {
        list.push(job(number))?;
    }
    Ok(list)
}
