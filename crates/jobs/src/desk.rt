//! What a worker's future knows of the place where it begins jobs and awaits them. A `Worker` is proved for any such place, so its
//! answers came from there.
use crate::Solved;
use async_task::{NoMemory, Poll};

/// Where jobs are begun, one after the other.
pub trait Desk {
    ghost use Rattle.std.specs.Prelude.{List, []};
    ghost use Rattle.jobs.specs.declared.job.Solved.{Solved};

    /// What came back here, in this order, each by a handle of its own that was awaited; some of it may be missing.
    ghost has_brought: { Self → List Solved → Type 0 };

    /// Begins the next job, whose handle is awaited then. False where none is left.
    fn begin(&mut self) -> Result<bool, NoMemory>
        ensures { (before : List Solved) → has_brought self.old before → has_brought self.new before };

    /// At first nothing came back, and all may be missing.
    ghost nothing: { (desk : Self) → has_brought desk [] };
}

/// Where jobs are awaited too, with wakers `K`.
pub trait Awaits<K>: Desk {
    ghost use Rattle.std.specs.Prelude.{List, ◌++◌};
    ghost use Rattle.jobs.specs.declared.job.Solved.{Solved};
    ghost use Rattle.jobs.specs.Bringing.{given_by};

    /// Awaits the handle of the job that was begun last, where one is awaited. Answers the job that came back, once it did.
    fn bring(&mut self, waker: &K) -> Poll<Result<Option<Solved>, NoMemory>>
        ensures kept { (before : List Solved) → Self.has_brought self.old before → Self.has_brought self.new before }
        ensures came { (before : List Solved) → Self.has_brought self.old before →
            Self.has_brought self.new (before ++ given_by result) };
}
