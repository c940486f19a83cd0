//! What handles of all kinds have and do.
ghost use Rattle.std.specs.Prelude.{◌≡◌, is_some};

use crate::copying::{Copied, copy_for};
use crate::entry::{LocalExWaker, Unlocked};
use crate::foreign::{Foreign, let_go};
use crate::link::Link;
use crate::output::Output;
use crate::sections;
use async_task::Wake;
use solo::{Owed, Polled, SoloWaker, Task};
use std::sync::Wait;

/// The handle of a task. It has no drop: it is given up, and may cancel before.
#[must_use]
pub struct Held<T, W: Drop, R: Drop> {
    link: Link<W, R>,
    task: Task,
    output: Output<T>,
}

/// What a poll of a handle finds.
#[must_use]
pub enum Found<T> {
    /// The output, which is given.
    Output(Foreign<T>),
    /// There is none, nor will there be one.
    Closed,
    /// There is none yet.
    Pending,
    /// No copy of the waker could be had: nothing was done.
    NoMemory,
}

impl<T: Drop, W: Wake + Drop, R: Wait + Copy + Drop> Held<T, W, R> {
    pub fn new(link: Link<W, R>, task: Task, output: Output<T>) -> Self
        ensures link { result.link ≡ link }
        ensures task { result.task ≡ task }
        ensures output { result.output ≡ output }
    {
        Held { link, task, output }
    }

    /// Whether the future has given its output and is dropped, or is going to be dropped.
    pub fn is_finished(&self, unlocked: &mut Unlocked) -> bool {
        sections::is_finished(self.link.lock(unlocked).get(), self.task)
    }

    /// The same, where the lock is free.
    pub fn is_finished_at_a_glance(&self, unlocked: &mut Unlocked) -> Option<bool> {
        match self.link.try_lock(unlocked) {
            Some(mut locked) => Some(sections::is_finished(locked.get(), self.task)),
            None => None,
        }
    }

    /// Closes the task, where it isn't over.
    pub fn cancel(&self, unlocked: &mut Unlocked) {
        let owed = sections::cancel(self.link.lock(unlocked).get(), self.task);
        self.link.pay_all(owed, unlocked);
    }

    /// Gives the handle up. An output that is there is dropped.
    pub fn leave(self, unlocked: &mut Unlocked) {
        let Held { link, task, output } = self;
        let owed = sections::detach(link.lock(unlocked).get(), task);
        let is_dropped = drops_output(&owed);
        link.pay_all(owed, unlocked);
        if is_dropped {
            let_go(output.take(), unlocked);
        }
    }

    /// Cancels the task, and gives the handle up.
    pub fn cancel_and_leave(self, unlocked: &mut Unlocked) {
        self.cancel(unlocked);
        self.leave(unlocked);
    }

    /// Polls the handle. Where there is an answer already it copies no waker, so that such a poll takes no memory.
    pub fn poll(&self, waker: &LocalExWaker<W, R>, unlocked: &mut Unlocked) -> Found<T> {
        let answer = sections::answer(self.link.lock(unlocked).get(), self.task);
        match answer {
            Some(polled) => self.found(polled, false, unlocked),
            None => self.wait(waker, unlocked),
        }
    }

    /// Leaves a copy of the waker. One of a task of another executor can't be kept: it is called at once.
    fn wait(&self, waker: &LocalExWaker<W, R>, unlocked: &mut Unlocked) -> Found<T> {
        match copy_for(&self.link, waker, unlocked) {
            Copied::Kept(copy) => {
                let polled = sections::poll(self.link.lock(unlocked).get(), self.task, copy);
                self.found(polled, true, unlocked)
            }
            Copied::Called => Found::Pending,
            Copied::Refused => Found::NoMemory,
        }
    }

    /// What a poll has found. Where the waker that it was made with isn't kept, it is dropped.
    fn found(
        &self,
        polled: Polled<(), SoloWaker<Foreign<W>>>,
        counts: bool,
        unlocked: &mut Unlocked,
    ) -> Found<T> {
        match polled {
            Polled::Output { output: (), spare } => {
                self.let_spare_go(spare, counts, unlocked);
                match self.output.take() {
                    Some(output) => Found::Output(output),
                    None => Found::Closed,
                }
            }
            Polled::Closed { spare } => {
                self.let_spare_go(spare, counts, unlocked);
                Found::Closed
            }
            Polled::Pending { replaced } => {
                self.link.let_go(replaced, unlocked);
                Found::Pending
            }
        }
    }

    fn let_spare_go(&self, spare: SoloWaker<Foreign<W>>, counts: bool, unlocked: &mut Unlocked) {
        match spare {
            SoloWaker::Task(task) => {
                if counts {
                    self.link.release(task, unlocked);
                }
            }
            SoloWaker::Outside(waker) => waker.let_go(unlocked),
        }
    }
}

/// Whether an output has to be dropped.
pub fn drops_output<F, W>(owed: &Owed<F, (), W>) -> bool
    ensures { result ≡ is_some owed.now.output }
{
    owed.output.is_some()
}
