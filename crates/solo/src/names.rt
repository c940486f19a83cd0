//! What names a task, and who is woken.
ghost use Rattle.std.specs.Prelude.{◌≡◌};

/// A task by its name: the number that it got as it was accepted, from 0 on, and where it is kept.
#[derive(Clone, Copy, Debug, PartialEq, Eq)]
pub struct Task {
    pub(crate) key: usize,
    pub(crate) number: u64,
}

/// A waker as it is kept: of a task of the same executor, which is a name that counts as one waker of it, or of the user.
#[derive(Debug, PartialEq, Eq, Drop)]
pub enum SoloWaker<X> {
    /// It wakes this task.
    Task(Task),
    /// It is the user's, who calls or drops it.
    Outside(X),
}

/// Which executor it is: an owned one counts a waker of each future that isn't dropped, and a static one counts none, so that
/// a future that nobody could wake or ask for is dropped.
#[derive(Clone, Copy, Debug, PartialEq, Eq)]
pub enum Kind {
    /// It is dropped with its futures.
    Owned,
    /// It is never dropped.
    Static,
}

impl Task {
    /// The task's number: how many were accepted before it.
    pub fn number(self) -> u64
        ensures { result ≡ self.number }
    {
        self.number
    }
}
