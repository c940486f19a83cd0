//! What follows a change of a task, in the order of the step machine: the queue's append, the exchange of the flag, the call of a
//! sleeper; the departure of an entry and the release of its waker.
ghost use Rattle.std.specs.Prelude.{◌≡◌};
ghost use Rattle.solo.specs.Turns as turns;

use crate::names::{SoloWaker, Task};
use crate::owed::{Found, Lent, Told, silent};
use crate::solo::Solo;
use executor_parts::{EntryPlace, exchange_flag};
use task_moves::local_task::Start;

/// What an entry that goes hands out.
#[must_use]
pub struct Left<F, X> {
    /// The future, if it was there.
    pub future: Option<F>,
    /// What the release of its waker hands out.
    pub told: Told<X>,
}

impl<F, T, X> Solo<F, T, X> {
    /// A sleeper is told, if no other was since the flag was last false. One that is a task is woken here.
    #[inline(always)]
    pub(crate) fn tell(&mut self) -> Option<X>
        ensures solo { self.new ≡ turns.told self.old }
        ensures sleeper { result ≡ turns.told_waker self.old }
    {
        let (notified, won) = exchange_flag(self.notified);
        self.notified = notified;
        if !won {
            return None;
        }
        match self.sleepers.hand_out() {
            Some(SoloWaker::Task(task)) => {
                self.wake_sleeper(task);
                None
            }
            Some(SoloWaker::Outside(waker)) => Some(waker),
            None => None,
        }
    }

    /// A task that sleeps is woken, by its waker, which goes. The flag is true by now, so nobody else is told.
    #[inline(never)]
    fn wake_sleeper(&mut self, task: Task)
        ensures { self.new ≡ turns.sleeper_woken task self.old }
    {
        if self.cells.wake(task) {
            self.line_up(task);
        }
        if self.cells.release(task) {
            self.line_up(task);
        }
        self.cells.tidy(task);
    }

    /// A task comes last in the queue of its mark. False where it is turned away.
    #[inline(always)]
    pub(crate) fn line_up(&mut self, task: Task) -> bool
        ensures solo { self.new ≡ turns.lined task self.old }
        ensures accepted { result ≡ turns.takes task self.old }
    {
        let mark = self.cells.mark(task);
        self.lines.push(mark, task)
    }

    /// A task is queued, and a sleeper told; or it comes back, and nobody is told.
    #[inline(always)]
    pub(crate) fn schedule(&mut self, task: Task) -> Told<X>
        ensures solo { self.new ≡ turns.scheduled task self.old }
        ensures told { result ≡ turns.schedule_answer task self.old }
    {
        if self.line_up(task) {
            Told {
                sleeper: self.tell(),
                returned: None,
            }
        } else {
            Told {
                sleeper: None,
                returned: Some(task),
            }
        }
    }

    /// A task is queued where it has to be.
    #[inline(always)]
    pub(crate) fn schedule_if(&mut self, is_due: bool, task: Task) -> Told<X>
        ensures solo { self.new ≡ turns.scheduled_if is_due task self.old }
        ensures told { result ≡ turns.schedule_if_answer is_due task self.old }
    {
        if is_due {
            self.schedule(task)
        } else {
            silent()
        }
    }

    /// One waker of a task goes.
    #[inline(always)]
    pub(crate) fn let_go(&mut self, task: Task) -> Told<X>
        ensures solo { self.new ≡ turns.let_go task self.old }
        ensures told { result ≡ turns.let_go_answer task self.old }
    {
        let is_due = self.cells.release(task);
        let told = self.schedule_if(is_due, task);
        self.cells.tidy(task);
        told
    }

    /// The turn of a task begins: its future comes out of the table.
    #[inline(always)]
    pub(crate) fn begin(&mut self, task: Task) -> Found<F>
        ensures solo { self.new ≡ turns.begun task self.old }
        ensures found { result ≡ turns.begin_answer task self.old }
    {
        match self.cells.start(task) {
            Some(Start::Poll(place)) => match self.table.take(place) {
                Some(future) => Found::Poll(Lent { task, place }, future),
                None => Found::Gone,
            },
            Some(Start::Drop(place)) => match self.table.take(place) {
                Some(future) => Found::Drop(Lent { task, place }, future),
                None => Found::Gone,
            },
            None => Found::Gone,
        }
    }

    /// The entry of a future goes, which is dropped, and its waker with it, if it counts one.
    #[inline(always)]
    pub(crate) fn leave(&mut self, place: EntryPlace) -> Left<F, X>
        ensures solo { self.new ≡ turns.left place self.old }
        ensures left { result ≡ turns.left_answer place self.old }
    {
        match self.table.leave(place) {
            Some((future, waker)) => Left {
                future,
                told: self.let_go_if(waker),
            },
            None => Left {
                future: None,
                told: silent(),
            },
        }
    }

    /// The waker of an entry that went is released, if it had one.
    #[inline(always)]
    fn let_go_if(&mut self, waker: Option<Task>) -> Told<X>
        ensures solo { self.new ≡ turns.let_go_if waker self.old }
        ensures told { result ≡ turns.let_go_if_answer waker self.old }
    {
        match waker {
            Some(task) => self.let_go(task),
            None => silent(),
        }
    }
}
