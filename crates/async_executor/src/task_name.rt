//! The names of tasks, as contracts see them.
ghost use Rattle.std.specs.Prelude.{◌≡◌};
ghost use Rattle.async_executor.specs.Steps.{name_given};

use crate::names::{ExStoredRunnable, ExWaker};
use async_task::{Identity, Output, OutsideWaker, Returning, Runtime, StoredWaker};
use call_steps::Waker;
use std::marker::Model;
use std::snapshot::Snapshot;

/// What a task is known by: a Runnable or a waker of it, or what that says of itself.
#[derive(Drop)]
pub enum KnownBy {
    Runnable(Snapshot<ExStoredRunnable>),
    Waker(Snapshot<Returning<StoredWaker>>),
    Identified(Snapshot<Identity>),
}

/// Which task it is. Only contracts read it: nothing is looked up for it.
#[derive(Drop)]
pub struct TaskName {
    known_by: KnownBy,
}

impl Model for TaskName {
    ghost use Rattle.async_task.specs.declared.cell.Identity.{Identity};
    ghost use Rattle.async_executor.specs.TaskNames.{identity_by};

    ghost Value = { Identity };

    ghost view = { λ n. identity_by n.known_by };
}

impl TaskName {
    /// Which task the Runnable is of.
    #[inline(always)]
    pub fn of_runnable(runnable: &ExStoredRunnable) -> TaskName
        ensures { result ≡ runnable.now.identity }
    {
        TaskName {
            known_by: KnownBy::Runnable(Snapshot::of(runnable)),
        }
    }

    /// The name for no task: that of an entry without a waker, which an owned executor doesn't have.
    pub fn of_none() -> TaskName {
        let identity = Identity { realm: 0, place: 0 };
        TaskName {
            known_by: KnownBy::Identified(Snapshot::of(&identity)),
        }
    }

    /// Which task the waker is of.
    #[inline(always)]
    pub fn of_waker(waker: &Returning<StoredWaker>) -> TaskName
        ensures { result ≡ waker.now.identity }
    {
        TaskName {
            known_by: KnownBy::Waker(Snapshot::of(waker)),
        }
    }
}

/// The name of the waker that a poll was given.
#[inline(always)]
pub fn name_given_to<T: Output, W: OutsideWaker, R: Runtime>(
    waker: &ExWaker<T, W, R>,
) -> Waker<TaskName>
    ensures { result ≡ name_given waker.now }
{
    match waker.identity() {
        Some(identity) => Waker::Task(TaskName {
            known_by: KnownBy::Identified(Snapshot::of(&identity)),
        }),
        None => Waker::Outside,
    }
}
