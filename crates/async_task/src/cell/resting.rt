//! What stands for something of a task that rests in its cell, while the cell's place stands in a queue or a list.
//! None of it has a size or a drop: it is made by the step that lays a thing to rest, and goes by the step that takes
//! that out.
ghost use Rattle.std.specs.Prelude.{◌≡◌, IfErr};
ghost use Rattle.task_word.specs.Handles.{IsHandleOf};

mod lost;

use crate::bounds::Output;
pub use crate::cell::resting::lost::{Lost, Lot, Thing};
use crate::cell::turns::owed_runnable;
use crate::cell::{Held, Kept, RunnableToken, Site, TaskToken, WakerToken, Woken, Word};
use std::sync::Wait;
use task_word::tokens::OwingTask;

/// A Runnable rests.
pub struct Rested(());

/// A waker rests.
pub struct Stored(());

/// The handle rests.
pub struct Parked(());

/// A waker that rests in its cell, as the cell of another task of its realm keeps it. A cell lies there for good, and
/// so does what it keeps: the drop of this is for the types alone.
pub struct KeptWaker {
    place: usize,
    stored: Stored,
}

impl KeptWaker {
    /// The place, and the waker that rests there.
    pub(crate) fn open(self) -> (usize, Stored) {
        let KeptWaker { place, stored } = self;
        (place, stored)
    }
}

impl Drop for KeptWaker {
    fn drop(self) {
        let KeptWaker {
            place: _,
            stored: Stored(()),
        } = self;
    }
}

/// The duty of a handle to cancel its task before it goes. It is made with the handle and rests with it. A cancel spends it, and a
/// detach hands it on.
pub struct Duty(());

/// Proof that a handle was given up with its duty to cancel unspent: its task goes on. Only a detach makes one.
pub struct Detached {
    duty: Duty,
}

impl Detached {
    /// What a handle leaves that goes without a cancel.
    pub(crate) fn of(duty: Duty) -> Self {
        Detached { duty }
    }
}

impl Drop for Detached {
    fn drop(self) {
        let Detached { duty: Duty(()) } = self;
    }
}

/// What the handle's cancel has left to be done.
pub(crate) struct CancelStep<F: 'static, T: 'static, W: 'static> {
    pub woken: Option<Woken<F, T, W>>,
    pub task: Result<TaskToken<F, T, W>, OwingTask<F, T, Kept<W>>>,
}

/// The Runnable rests in its cell.
#[inline(always)]
pub(crate) fn rest<F: 'static, T: 'static, W: 'static>(token: RunnableToken<F, T, W>) -> Rested {
    token.rest();
    Rested(())
}

/// The waker's reference rests in its cell.
#[inline(always)]
pub(crate) fn store<F: 'static, T: 'static, W: 'static>(token: WakerToken<F, T, W>) -> Stored {
    token.store();
    Stored(())
}

/// The same of a waker of a task at this place, for a cell that keeps it.
#[inline(always)]
pub(crate) fn kept<F: 'static, T: 'static, W: 'static>(
    place: usize,
    token: WakerToken<F, T, W>,
) -> KeptWaker {
    KeptWaker {
        place,
        stored: store(token),
    }
}

/// The handle rests in its cell, with its duty.
#[inline(always)]
pub(crate) fn park<F: 'static, T: 'static, W: 'static>(
    task: TaskToken<F, T, W>,
    duty: Duty,
) -> Parked {
    let Duty(()) = duty;
    task.park();
    Parked(())
}

/// A new task, with its Runnable, its handle, and the handle's duty. The future comes back where the cell isn't empty.
#[inline(always)]
pub(crate) fn begin<F: 'static, T: 'static, W: 'static, R: Wait>(
    word: &'static Word<F, T, W>,
    rt: &R,
    future: F,
) -> Result<(RunnableToken<F, T, W>, TaskToken<F, T, W>, Duty), F>
    ensures { IfErr result (λ back. back ≡ future) }
{
    match word.make(rt, future) {
        Ok((token, task)) => Ok((token, task, Duty(()))),
        Err((future, _)) => Err(future),
    }
}

impl<F, T: Output, S, M, W, R> Site<F, T, S, M, W, R>
where
    F: Drop + 'static,
    S: Drop + 'static,
    M: Copy + Drop + 'static,
    W: Drop + 'static,
    R: Wait + Copy + Drop,
{
    /// The Runnable that rests in the cell.
    #[inline(always)]
    pub(crate) fn resume(&self, rested: Rested) -> Result<RunnableToken<F, T, W>, Rested> {
        match self.cell.word.resume(&self.rt) {
            Ok(token) => {
                let Rested(()) = rested;
                Ok(token)
            }
            Err(_) => Err(rested),
        }
    }

    /// One try of `resume`. It comes back too where somebody else stepped meanwhile.
    #[inline(always)]
    pub(crate) fn resume_once(&self, rested: Rested) -> Result<RunnableToken<F, T, W>, Rested> {
        match self.cell.word.resume_once() {
            Some(token) => {
                let Rested(()) = rested;
                Ok(token)
            }
            None => Err(rested),
        }
    }

    /// A reference that rests in the cell.
    #[inline(always)]
    pub(crate) fn redeem(&self, stored: Stored) -> Result<WakerToken<F, T, W>, Stored> {
        match self.cell.word.redeem(&self.rt) {
            Ok(token) => {
                let Stored(()) = stored;
                Ok(token)
            }
            Err(_) => Err(stored),
        }
    }

    /// The handle that rests in the cell, with its duty.
    #[inline(always)]
    pub(crate) fn unpark(&self, parked: Parked) -> Result<(TaskToken<F, T, W>, Duty), Parked> {
        match self.cell.word.unpark(&self.rt) {
            Ok(task) => {
                let Parked(()) = parked;
                Ok((task, Duty(())))
            }
            Err(_) => Err(parked),
        }
    }
}

impl<F, T: Output, S, M, W, R> Held<F, T, S, M, W, R>
where
    F: Drop + 'static,
    S: Drop + 'static,
    M: Copy + Drop + 'static,
    W: Drop + 'static,
    R: Wait + Copy + Drop,
{
    /// The step by which the handle cancels its task.
    #[inline(always)]
    pub(crate) fn begin_cancel(&self, task: TaskToken<F, T, W>, duty: Duty) -> CancelStep<F, T, W>
        ensures { IsHandleOf task.entry.cell.now result.task }
    {
        let Duty(()) = duty;
        let (owed, runnable, task) = task.cancel(&self.rt);
        let woken = owed_runnable(owed, runnable);
        CancelStep { woken, task }
    }
}
