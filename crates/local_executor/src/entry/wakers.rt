//! The wakers of tasks of an executor of one thread. They may go to other threads, and be called there.
use crate::entry::Unlocked;
use crate::link::Link;
use async_task::Wake;
use solo::Task;
use std::sync::Wait;

/// A waker of a task.
pub struct LocalWaker<W: Wake + Drop, R: Wait + Copy + Drop> {
    pub(crate) link: Link<W, R>,
    pub(crate) task: Task,
}

/// The waker with which futures, handles and ticks are polled.
#[derive(Drop)]
pub enum LocalExWaker<W: Wake + Drop, R: Wait + Copy + Drop> {
    /// Of a task.
    Task(LocalWaker<W, R>),
    /// From outside.
    Outside(W),
}

impl<W: Wake + Drop, R: Wait + Copy + Drop> LocalWaker<W, R> {
    /// Ends a waker that didn't count.
    pub(crate) fn forget(self) {
        let LocalWaker { link, task: _ } = self;
        drop(link);
    }
}

impl<W: Wake + Drop, R: Wait + Copy + Drop> Drop for LocalWaker<W, R> {
    fn drop(self) {
        let LocalWaker { link, task } = self;
        link.release(task, &mut Unlocked::at_entry());
    }
}

impl<W: Wake + Drop, R: Wait + Copy + Drop> Wake for LocalWaker<W, R> {
    ghost use Rattle.std.specs.Prelude.{◌↔◌, IsTrue, IfSome};
    ghost use Rattle.local_executor.specs.Wakers.{IsOfOneTask};

    ghost is_same = { λ a b. IsOfOneTask a b };

    /// Queues the task, where it is open and idle. It takes no memory.
    fn wake(self) {
        let LocalWaker { link, task } = self;
        link.wake_and_release(task, &mut Unlocked::at_entry());
    }

    fn wake_by_ref(&self) {
        self.link.wake(self.task, &mut Unlocked::at_entry());
    }

    /// Makes one more waker, or None where the task has 2^40 references already.
    fn clone(&self) -> Option<Self>
        ensures { IfSome result (λ copy. IsOfOneTask copy self.now) }
    {
        if self.link.hold(self.task, &mut Unlocked::at_entry()) {
            Some(LocalWaker {
                link: self.link.share(),
                task: self.task,
            })
        } else {
            None
        }
    }

    /// Whether both are of one task.
    fn will_wake(&self, other: &Self) -> bool
        ensures { IsTrue result ↔ IsOfOneTask self.now other.now }
    {
        self.task == other.task && self.link.is_to_the_same(&other.link)
    }
}

/// Lets `block_on` of `blocking` poll handles and ticks.
impl<W: Wake + Drop, R: Wait + Copy + Drop> From<W> for LocalExWaker<W, R> {
    ghost use Rattle.std.specs.Prelude.{◌≡◌};
    ghost use Rattle.local_executor.specs.declared.entry.wakers.LocalExWaker.TheVariants.{Outside};

    ghost from_gives = { λ waker given. given ≡ Outside waker };

    fn from(waker: W) -> Self {
        LocalExWaker::Outside(waker)
    }
}

impl<W: Wake + Drop, R: Wait + Copy + Drop> Wake for LocalExWaker<W, R> {
    ghost use Rattle.std.specs.Prelude.{IsTrue, IfSome};
    ghost use Rattle.local_executor.specs.Wakers.{WakeTheSame};

    ghost is_same = { λ a b. WakeTheSame W.is_same a b };

    fn wake(self) {
        match self {
            LocalExWaker::Task(waker) => waker.wake(),
            LocalExWaker::Outside(waker) => waker.wake(),
        }
    }

    fn wake_by_ref(&self) {
        match self {
            LocalExWaker::Task(waker) => waker.wake_by_ref(),
            LocalExWaker::Outside(waker) => waker.wake_by_ref(),
        }
    }

    fn clone(&self) -> Option<Self>
        ensures { IfSome result (λ copy. WakeTheSame W.is_same copy self.now) }
    {
        match self {
            LocalExWaker::Task(waker) => match waker.clone() {
                Some(copy) => Some(LocalExWaker::Task(copy)),
                None => None,
            },
            LocalExWaker::Outside(waker) => match waker.clone() {
                Some(copy) => Some(LocalExWaker::Outside(copy)),
                None => None,
            },
        }
    }

    /// Whether both wake the same, as far as the wakers know: a no says nothing.
    fn will_wake(&self, other: &Self) -> bool
        ensures { IsTrue result → WakeTheSame W.is_same self.now other.now }
    {
        match (self, other) {
            (LocalExWaker::Task(one), LocalExWaker::Task(two)) => one.will_wake(two),
            (LocalExWaker::Outside(one), LocalExWaker::Outside(two)) => one.will_wake(two),
            _ => false,
        }
    }
}
