//! The end of an executor: its futures are taken out and dropped, and its tasks closed. Or it never ends: it is leaked.
ghost use Rattle.std.specs.Prelude.{◌≡◌};
ghost use Rattle.solo.specs.Closing as closing;

use crate::names::{Kind, SoloWaker, Task};
use crate::owed::{Lent, Owed, Told, hands, silent};
use crate::solo::Solo;
use executor_parts::Mark;
use task_moves::local_task::Finish;

/// What the end of a task hands out.
#[must_use]
pub struct Awaited<X> {
    /// Who awaits the task: it is called.
    pub awaiter: Option<SoloWaker<X>>,
    /// Who awaited a task without a handle: it is dropped.
    pub old: Option<SoloWaker<X>>,
}

/// Whether an awaiter is called or dropped.
pub fn after_finish<X>(finish: Finish<SoloWaker<X>>) -> Awaited<X>
    ensures { result ≡ closing.awaited finish }
{
    match finish {
        Finish::Wake(awaiter) => Awaited {
            awaiter: Some(awaiter),
            old: None,
        },
        Finish::Drop(awaiter) => Awaited {
            awaiter: None,
            old: Some(awaiter),
        },
        Finish::Nothing => Awaited {
            awaiter: None,
            old: None,
        },
    }
}

impl<F, T, X> Solo<F, T, X> {
    /// Begins the end: all futures that aren't dropped are taken out, for `drain`.
    pub fn close(&mut self)
        ensures { self.new ≡ closing.closed self.old }
    {
        self.table.exchange(&mut self.going);
    }

    /// One more of what is to be done at the end, until there is nothing: each future that `close` has taken out, in the order of
    /// acceptance; then their tasks' wakes in that order; then both queues are closed, and each task in them loses its turn, first
    /// the urgent ones.
    pub fn drain(&mut self) -> Option<Owed<F, T, X>>
        ensures solo { self.new ≡ closing.drained self.old }
        ensures owed { result ≡ closing.drain_answer self.old }
    {
        match self.going.leave_first() {
            Some((future, waker)) => {
                self.will_wake(waker);
                Some(hands(future, None, silent()))
            }
            None => self.drain_leaving(),
        }
    }

    /// A waker that came out of the table is to be called, if there is one.
    fn will_wake(&mut self, waker: Option<Task>)
        ensures { self.new ≡ closing.to_wake waker self.old }
    {
        if let Some(task) = waker {
            self.leaving.push(task);
        }
    }

    /// It becomes a static executor, which counts no waker of its futures. Those that it counted are taken out, for `leak_next`.
    pub fn leak(&mut self)
        ensures { self.new ≡ closing.leaked self.old }
    {
        self.kind = Kind::Static;
        for _step in 0..self.table.len() {
            let waker = self.table.turn();
            self.will_wake(waker);
        }
    }

    /// One more of the wakers that a leak has taken out is called, in the order of acceptance: its task is queued, or was before.
    pub fn leak_next(&mut self) -> Option<Told<X>>
        ensures solo { self.new ≡ closing.leak_woken self.old }
        ensures told { result ≡ closing.leak_answer self.old }
    {
        match self.leaving.pop() {
            Some(task) => Some(self.wake_leaving(task)),
            None => None,
        }
    }

    fn drain_leaving(&mut self) -> Option<Owed<F, T, X>>
        ensures solo { self.new ≡ closing.leaving_drained self.old }
        ensures owed { result ≡ closing.drain_leaving_answer self.old }
    {
        match self.leaving.pop() {
            Some(task) => {
                let told = self.wake_leaving(task);
                Some(hands(None, None, told))
            }
            None => self.drain_line(),
        }
    }

    /// The task of a future that is gone is woken, by the table's waker, which goes.
    fn wake_leaving(&mut self, task: Task) -> Told<X>
        ensures solo { self.new ≡ closing.leaving_woken task self.old }
        ensures told { result ≡ closing.leaving_answer task self.old }
    {
        let told = self.wake(task);
        if self.cells.release(task) {
            self.line_up(task);
        }
        self.cells.tidy(task);
        told
    }

    fn drain_line(&mut self) -> Option<Owed<F, T, X>>
        ensures solo { self.new ≡ closing.line_drained self.old }
        ensures owed { result ≡ closing.line_answer self.old }
    {
        self.lines.close();
        match self.lines.take_from(Mark::Urgent).task {
            Some(task) => Some(self.retract(task)),
            None => None,
        }
    }

    /// A queued task loses its turn, as by the drop of a Runnable: it is closed, and its future dropped.
    pub fn retract(&mut self, task: Task) -> Owed<F, T, X>
        ensures solo { self.new ≡ closing.retracted task self.old }
        ensures owed { result ≡ closing.retract_answer task self.old }
    {
        match self.cells.retract(task) {
            Some(place) => match self.table.take(place) {
                Some(future) => hands(Some(future), Some(Lent { task, place }), silent()),
                None => self.finish_gone(task),
            },
            None => hands(None, None, silent()),
        }
    }

    /// A task is finished whose future is gone.
    fn finish_gone(&mut self, task: Task) -> Owed<F, T, X>
        ensures solo { self.new ≡ closing.finished_gone task self.old }
        ensures owed { result ≡ closing.finish_gone_answer task self.old }
    {
        let Awaited { awaiter, old } = after_finish(self.cells.finish(task));
        self.cells.tidy(task);
        Owed {
            future: None,
            rest: None,
            output: None,
            awaiter,
            sleeper: None,
            old,
            returned: None,
        }
    }
}
