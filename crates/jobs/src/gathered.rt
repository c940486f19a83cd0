//! What came back to several workers, put together.
ghost use Rattle.std.specs.Prelude.{◌≡◌, ◌≢◌, ◌+◌, ℕ, IfOk, IfErr, count_by, map};
ghost use Rattle.jobs.specs.Answers.{answer_of};
ghost use Rattle.jobs.specs.Gathered.{AreCounts, EachCameOnce, IsLeastMissing, is_of, times_back};
ghost use Rattle.jobs.specs.declared.errors.JobsError.TheVariants.{Missing, NoMemory};

use crate::errors::JobsError;
use crate::job::{Answer, Job, Solved};
use crate::results::Results;
use std::alloc::Global;

/// The answers of these jobs, in order, where each came back once in all of these lists; else the first job that didn't.
pub fn gather(
    alloc: Global,
    jobs: &[Job],
    returned: &[Vec<Solved>],
) -> Result<Vec<Answer>, JobsError>
    ensures answers { IfOk result (λ answers. answers.items ≡ map answer_of jobs.now) }
    ensures once { IfOk result (λ answers. EachCameOnce jobs.now returned.now) }
    ensures missing { (number : ℕ) → result ≡ Err (Missing number) → IsLeastMissing jobs.now returned.now number }
    ensures fault { IfErr result (λ fault. (fault ≢ NoMemory) → (number : ℕ) × (fault ≡ Missing number)) }
{
    let Ok(mut results) = Results::new(alloc, jobs) else {
        return Err(JobsError::NoMemory);
    };
    note_all(&mut results, returned);
    results.in_order(alloc)
}

/// Notes what came back in each of these lists.
fn note_all(results: &mut Results<'_>, returned: &[Vec<Solved>])
    ensures jobs { results.new.jobs.now ≡ results.old.jobs.now }
    ensures counted { (times : ℕ → ℕ) → AreCounts results.old.backs.items times →
        AreCounts results.new.backs.items (λ number. times number + times_back results.old.jobs.now returned.now number) }
{
    for solved in returned {
        note_each(results, solved);
    }
}

/// Notes what came back in this list.
fn note_each(results: &mut Results<'_>, solved: &[Solved])
    ensures jobs { results.new.jobs.now ≡ results.old.jobs.now }
    ensures counted { (times : ℕ → ℕ) → AreCounts results.old.backs.items times →
        AreCounts results.new.backs.items (λ number. times number + count_by (is_of results.old.jobs.now number) solved.now) }
{
    for one in solved {
        results.note(one);
    }
}
