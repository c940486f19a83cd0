//! A job, its answer, and both together.
ghost use Rattle.std.specs.Prelude.{◌≡◌, ◌≤◌, ℕ};
ghost use Rattle.jobs.specs.Answers.{answer_of};

/// The work of a job.
#[derive(Clone, Copy, Debug, PartialEq, Eq)]
pub enum Job {
    /// 0 + 1 + .. + n, for an n of at most `LARGEST_SUM`.
    Sum(u64),
    /// The product of both.
    Mul(u64, u64),
}

/// The largest n of a sum.
pub const LARGEST_SUM: u64 = 1_000_000;

/// The result of a job.
#[derive(Clone, Copy, Debug, PartialEq, Eq)]
pub enum Answer {
    Value(u64),
    /// The answer doesn't fit a u64.
    TooLarge,
}

/// A job that is done: its number, what it was, and its answer, which is the right one.
#[derive(Debug, Drop)]
pub struct Solved {
    pub number: u64,
    pub job: Job,
    pub answer: Answer,
    ghost right: { answer ≡ answer_of job },
}

/// The product of two numbers.
pub fn product(a: u64, b: u64) -> Answer
    ensures { result ≡ answer_of (Job.Mul a b) }
{
    match a.checked_mul(b) {
        Some(product) => Answer::Value(product),
        None => Answer::TooLarge,
    }
}
