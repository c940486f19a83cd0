//! The waker of a program.
ghost use Rattle.std.specs.Prelude.{IfSome};
ghost use Rattle.async_task.specs.Awaiters.{WakeTheSame};

use async_executor::ExWaker;
use async_task::{Runtime, Wake};
use blocking::ThreadWaker;

/// The waker of all futures in the pools of a program, and of each thread that waits there. Futures are written for any waker `K`,
/// or for this one.
///
/// It has a type of its own: a `main` whose channels and futures name the waker of an executor, with all that an executor is made of,
/// gets no proof.
pub struct Waker<R: Runtime> {
    held: ExWaker<(), ThreadWaker, R>,
}

impl<R: Runtime> Waker<R> {
    /// Makes one that wakes what this waker of an executor does, or None where no more can be had.
    pub(crate) fn of(waker: &ExWaker<(), ThreadWaker, R>) -> Option<Self>
        ensures { IfSome result (λ copy. WakeTheSame (λ x y. Unit {0}) copy.held waker.now) }
    {
        match waker.clone() {
            Some(held) => Some(Waker { held }),
            None => None,
        }
    }
}

/// Makes the waker of a thread that waits.
impl<R: Runtime> From<ThreadWaker> for Waker<R> {
    fn from(thread: ThreadWaker) -> Self {
        Waker {
            held: ExWaker::from(thread),
        }
    }
}

impl<R: Runtime> Wake for Waker<R> {
    ghost use Rattle.async_task.specs.Awaiters.{WakeTheSame};

    ghost is_same = { λ a b. WakeTheSame (λ x y. Unit {0}) a.held b.held };

    fn wake(self) {
        let Waker { held } = self;
        held.wake();
    }

    fn wake_by_ref(&self) {
        self.held.wake_by_ref();
    }

    fn clone(&self) -> Option<Self> {
        Waker::of(&self.held)
    }

    fn will_wake(&self, other: &Self) -> bool {
        self.held.will_wake(&other.held)
    }
}

// Written out, so that crates above call it, and don't prove the drops of its parts once more.
impl<R: Runtime> Drop for Waker<R> {
    fn drop(self) {
        let Waker { held: _held } = self;
    }
}
