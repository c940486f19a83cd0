//! What the calls of an executor of one owner hand out: its owner polls, drops or calls it.
ghost use Rattle.std.specs.Prelude.{◌≡◌};
ghost use Rattle.solo.specs.Solo as solo;
ghost use Rattle.solo.specs.Turns as turns;

use crate::names::{SoloWaker, Task};
use executor_parts::EntryPlace;
use std::io::{self, ErrorKind};

/// A future that is out, to be polled or dropped. It has no drop: it goes back by `settle`, or by `finish` once its future is
/// dropped.
#[must_use]
pub struct Lent {
    pub(crate) task: Task,
    pub(crate) place: EntryPlace,
}

impl Lent {
    /// The task of the future.
    pub fn task(&self) -> Task
        ensures { result ≡ self.now.task }
    {
        self.task
    }
}

/// What a take found.
#[must_use]
pub enum Found<F> {
    /// No task is queued.
    Nothing,
    /// The future is polled, and then `settle` is called.
    Poll(Lent, F),
    /// The future is dropped, and then `finish` is called.
    Drop(Lent, F),
    /// A task whose future a close has taken out: nothing is to be done.
    Gone,
}

/// What a queueing hands out.
#[must_use]
pub struct Told<X> {
    /// A sleeper's waker: it is called.
    pub sleeper: Option<X>,
    /// A task that the queue has turned away, as a Runnable that comes back: it goes to `retract`.
    pub returned: Option<Task>,
}

/// What a call hands out: it is taken apart in this order. It has no drop.
#[must_use]
pub struct Owed<F, T, X> {
    /// A future: it is dropped.
    pub future: Option<F>,
    /// Once the future is dropped, `finish` is called with this.
    pub rest: Option<Lent>,
    /// An output: it is dropped.
    pub output: Option<T>,
    /// Who awaits the task: it is called.
    pub awaiter: Option<SoloWaker<X>>,
    /// A sleeper's waker: it is called.
    pub sleeper: Option<X>,
    /// A waker that is kept no more: it is dropped.
    pub old: Option<SoloWaker<X>>,
    /// A task that the queue has turned away: it goes to `retract`.
    pub returned: Option<Task>,
}

/// Why a future is refused. It comes back.
#[derive(Debug, PartialEq, Eq, Drop)]
pub enum SpawnError<F> {
    /// As many futures as the limit are accepted and not yet dropped.
    Full(F),
    /// Memory was refused.
    NoMemory(F),
}

impl<F> SpawnError<F> {
    /// The future that was refused.
    pub fn into_inner(self) -> F
        ensures { result ≡ solo.refused self }
    {
        match self {
            SpawnError::Full(future) | SpawnError::NoMemory(future) => future,
        }
    }
}

/// So that `?` takes it to an `io::Result`. A full executor is `WouldBlock`: there may be a place later.
impl<F: Drop> From<SpawnError<F>> for io::Error {
    ghost use Rattle.std.specs.IoError.{error_kind};
    ghost use Rattle.solo.specs.Kinds.{of_spawn};

    ghost from_gives = { λ refused error. error_kind error ≡ of_spawn refused };

    fn from(refused: SpawnError<F>) -> io::Error {
        match refused {
            SpawnError::Full(_) => ErrorKind::WouldBlock.into(),
            SpawnError::NoMemory(_) => ErrorKind::OutOfMemory.into(),
        }
    }
}

/// A future was accepted.
#[must_use]
pub struct Spawned<X> {
    /// The task's name, which is its handle.
    pub task: Task,
    /// What its queueing hands out.
    pub told: Told<X>,
}

/// Nobody is told.
#[inline(always)]
pub fn silent<X>() -> Told<X>
    ensures { result ≡ turns.silent }
{
    Told {
        sleeper: None,
        returned: None,
    }
}

/// A future, and what a queueing hands out.
#[inline(always)]
pub fn hands<F, T, X>(future: Option<F>, rest: Option<Lent>, told: Told<X>) -> Owed<F, T, X>
    ensures { result ≡ solo.hands future rest told }
{
    let Told { sleeper, returned } = told;
    Owed {
        future,
        rest,
        output: None,
        awaiter: None,
        sleeper,
        old: None,
        returned,
    }
}

/// What a take of the queue's first task hands out.
#[must_use]
pub struct Taken<F, X> {
    /// What is polled or dropped.
    pub found: Found<F>,
    /// A sleeper's waker: it is called before.
    pub sleeper: Option<X>,
}
