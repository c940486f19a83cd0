//! The wakers that a script's futures, handles, ticks and runs are polled with.
use crate::one_owner::link::Link;
use async_task::Wake;
use player_parts::{Bell, KeptOf, Shelf};
use script::Name;
use solo::{SoloWaker, Task};
use std::sync::Wait;

/// A waker of a task. It counts as one: its drop lets that go.
pub struct TaskWaker<R: Wait + Copy + Drop> {
    link: Link<R>,
    task: Task,
}

/// What futures, handles, ticks and runs are polled with.
#[derive(Drop)]
pub enum ScriptWaker<R: Wait + Copy + Drop> {
    /// Of a task.
    Task(TaskWaker<R>),
    /// From outside.
    Outside(Bell),
}

/// The waker that a poll is lent. It counts as none, since the task is there for as long as the poll goes: so it has no drop.
#[must_use]
pub struct LentWaker<R: Wait + Copy + Drop> {
    waker: ScriptWaker<R>,
}

impl<R: Wait + Copy + Drop> TaskWaker<R> {
    /// Wakes the task.
    pub fn call(&self) {
        self.link.wake(self.task);
    }

    /// Goes, and was none that counts.
    fn forget(self) {
        let TaskWaker { link, task: _ } = self;
        drop(link);
    }
}

impl<R: Wait + Copy + Drop> Drop for TaskWaker<R> {
    fn drop(self) {
        let TaskWaker { link, task } = self;
        link.release(task);
    }
}

impl<R: Wait + Copy + Drop> KeptOf<ScriptWaker<R>> for TaskWaker<R> {
    fn kept_of(waker: &ScriptWaker<R>) -> Option<TaskWaker<R>> {
        match waker {
            ScriptWaker::Task(waker) => copy_of_task(waker),
            ScriptWaker::Outside(_) => None,
        }
    }

    fn keep_none(shelf: &Shelf<TaskWaker<R>>, name: Name) {
        drop(shelf.take_kept(name));
    }
}

/// One more of a task, where it has fewer than 2^40 references.
fn copy_of_task<R: Wait + Copy + Drop>(waker: &TaskWaker<R>) -> Option<TaskWaker<R>> {
    let is_held = waker.link.tasks().hold(waker.task);
    if is_held {
        Some(TaskWaker {
            link: waker.link.share(),
            task: waker.task,
        })
    } else {
        None
    }
}

impl<R: Wait + Copy + Drop> Wake for ScriptWaker<R> {
    ghost is_same = { λ a b. Unit {0} };

    fn wake(self) {
        self.wake_by_ref();
    }

    fn wake_by_ref(&self) {
        match self {
            ScriptWaker::Task(waker) => waker.call(),
            ScriptWaker::Outside(bell) => bell.wake_by_ref(),
        }
    }

    fn clone(&self) -> Option<Self> {
        match self {
            ScriptWaker::Task(waker) => match copy_of_task(waker) {
                Some(copy) => Some(ScriptWaker::Task(copy)),
                None => None,
            },
            ScriptWaker::Outside(bell) => match bell.clone() {
                Some(copy) => Some(ScriptWaker::Outside(copy)),
                None => None,
            },
        }
    }

    fn will_wake(&self, other: &Self) -> bool {
        match (self, other) {
            (ScriptWaker::Task(one), ScriptWaker::Task(two)) => one.task == two.task,
            (ScriptWaker::Outside(one), ScriptWaker::Outside(two)) => one.will_wake(two),
            _ => false,
        }
    }
}

impl<R: Wait + Copy + Drop> LentWaker<R> {
    /// Of the task that is about to be polled.
    pub fn of(link: Link<R>, task: Task) -> LentWaker<R> {
        LentWaker {
            waker: ScriptWaker::Task(TaskWaker { link, task }),
        }
    }

    /// What the poll is lent.
    pub fn waker(&self) -> &ScriptWaker<R> {
        &self.waker
    }

    /// The poll is over.
    pub fn end(self) {
        let LentWaker { waker } = self;
        match waker {
            ScriptWaker::Task(waker) => waker.forget(),
            ScriptWaker::Outside(bell) => drop(bell),
        }
    }
}

/// A copy of a waker, for the executor to keep.
pub fn copy_for<R: Wait + Copy + Drop>(
    link: &Link<R>,
    waker: &ScriptWaker<R>,
) -> Option<SoloWaker<Bell>> {
    match waker {
        ScriptWaker::Task(waker) => {
            let is_held = link.tasks().hold(waker.task);
            if is_held {
                Some(SoloWaker::Task(waker.task))
            } else {
                None
            }
        }
        ScriptWaker::Outside(bell) => match bell.clone() {
            Some(copy) => Some(SoloWaker::Outside(copy)),
            None => None,
        },
    }
}
