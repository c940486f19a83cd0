//! The moves of a task's handle, each with all that it leaves to be done.
ghost use Rattle.std.specs.Prelude.{◌≡◌};
ghost use Rattle.async_task.specs.Polls.{IsTold};
ghost use Rattle.task_word.specs.Handles.{IsHandleOf};

use crate::bounds::{Output, OutsideWaker};
use crate::cell::resting::{CancelStep, Detached, Duty};
use crate::cell::turns::told;
use crate::cell::{Held, Kept, Scheduled, TaskToken, pay_due};
use crate::schedule::Schedule;
use std::sync::Wait;
use task_word::tokens::{Found, OwingTask};

impl<F, T: Output, S, M, W: OutsideWaker, R> Held<F, T, S, M, W, R>
where
    F: Drop + 'static,
    S: Schedule<Scheduled<F, T, S, M, W, R>> + Drop + 'static,
    M: Copy + Drop + 'static,
    R: Wait + Copy + Drop,
{
    /// The task is cancelled, which spends the handle's duty.
    pub(crate) fn cancel(&self, task: TaskToken<F, T, W>, duty: Duty) -> TaskToken<F, T, W>
        ensures { result.cell.now ≡ task.entry.cell.now }
    {
        let CancelStep { woken, task } = self.begin_cancel(task, duty);
        self.queue(woken);
        self.call_awaiter(task)
    }

    /// The awaiter is called, where it has to be woken.
    #[inline(always)]
    pub(crate) fn call_awaiter(
        &self,
        task: Result<TaskToken<F, T, W>, OwingTask<F, T, Kept<W>>>,
    ) -> TaskToken<F, T, W>
        ensures same { IsHandleOf result.cell.now task.entry }
        ensures told { IsTold task.entry result.claim }
    {
        let (task, awaiter) = told(&self.rt, task);
        pay_due(self.call_some(awaiter));
        task
    }

    /// The drop of a handle: it cancels its task, and goes.
    pub(crate) fn cancel_and_leave(&self, task: TaskToken<F, T, W>, duty: Duty) {
        self.leave_cell(self.cancel(task, duty));
    }

    /// The handle goes, and hands its duty on.
    pub(crate) fn detach(&self, task: TaskToken<F, T, W>, duty: Duty) -> Detached {
        self.leave_cell(task);
        Detached::of(duty)
    }

    /// The handle goes. An output that lies in the cell is dropped first.
    pub(crate) fn leave_cell(&self, task: TaskToken<F, T, W>) {
        let (owed, gone) = task.detach(&self.rt);
        match gone {
            Ok(left) => self.pay(self.site().left(owed, left)),
            Err(found) => self.leave_emptied(found),
        }
    }

    /// The output is dropped, and the handle goes.
    fn leave_emptied(&self, found: Found<F, T, Kept<W>>) {
        let mut found = found;
        for _ in self.rt.forever() {
            let Found { task, output } = found;
            drop(output.pay());
            let (owed, gone) = task.detach(&self.rt);
            match gone {
                Ok(left) => {
                    self.pay(self.site().left(owed, left));
                    return;
                }
                Err(again) => found = again,
            }
        }
        unreachable!()
    }
}
