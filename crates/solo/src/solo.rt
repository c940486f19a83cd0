//! The executor, and its calls on tasks and futures.
ghost use Rattle.std.specs.Prelude.{◌≡◌, ◌<◌, IfOk, length, true};
ghost use Rattle.solo.specs.OwnQueues as own;
ghost use Rattle.solo.specs.Solo as solo;

use crate::cells::{After, Cells, Ended};
use crate::closing::{Awaited, after_finish};
use crate::line::Line;
use crate::lines::Lines;
use crate::names::{Kind, SoloWaker, Task};
use crate::owed::{Found, Lent, Owed, SpawnError, Spawned, Taken, Told, hands, silent};
use crate::own_queues::OwnQueues;
use crate::table::Table;
use crate::turns::Left;
use executor_parts::{Mark, Sleepers};
use queue_steps::NoMemory;
use std::alloc::Global;
use task_moves::local_task::{Back, Cancel, Detach, Polled};

/// An executor of one owner. It polls, drops and calls nothing itself: each call hands out what its owner has to.
///
/// Its tasks are numbered from 0 in the order in which their futures were accepted. `spawn`, `tick` and `run` alone take memory.
///
/// No Rust crate has one. Its calls are made by `&mut`, so they wait for nobody and ask for no runtime value. Futures `F`, outputs
/// `T` and wakers from outside `X` may be of any type, also of one without a drop. `new` asks for the allocator, a limit of accepted
/// futures that aren't dropped yet and the kind, and takes the places of the queues. A spawn beyond the limit is `Full`, and one
/// without memory `NoMemory`; both give the future back. A name that is used up finds nothing and changes nothing.
///
/// In `one_owner` of `examples` a future is a number, and gives twice that. `nobody` and `pay` take apart what is handed out:
///
/// ```
/// let mut solo = Solo::<u64, u64, Nobody>::new(rt.alloc(), 2, Kind::Owned)?;
/// let Spawned { task, told } = solo.spawn(21, Mark::Plain)?;
/// nobody(told);
/// let Taken { found, sleeper: _ } = solo.take();
/// let owed = match found {
///     Found::Poll(lent, number) => solo.settle(lent, Back::Ready(number.saturating_mul(2))),
///     Found::Drop(lent, _) => solo.finish(lent),
///     Found::Nothing | Found::Gone => panic!(rt; "nothing is queued"),
/// };
/// pay(&mut solo, owed);
/// ```
pub struct Solo<F, T, X> {
    pub(crate) cells: Cells<T, X>,
    // The futures that aren't dropped.
    pub(crate) table: Table<F>,
    // Those that a close has taken out, for `drain`.
    pub(crate) going: Table<F>,
    // The two queues.
    pub(crate) lines: Lines,
    // The tasks of the futures that `drain` has handed out, which it then wakes.
    pub(crate) leaving: Line,
    pub(crate) sleepers: Sleepers<SoloWaker<X>>,
    // A sleeper is told, or nobody sleeps.
    pub(crate) notified: bool,
    // The own queues of runs.
    pub(crate) runs: OwnQueues,
    pub(crate) kind: Kind,
    // How many futures were accepted.
    pub(crate) accepted: u64,
}

// Written out: a crate that hands an executor on then proves no drop of its parts.
impl<F: Drop, T: Drop, X: Drop> Drop for Solo<F, T, X> {
    fn drop(self) {
        let Solo {
            cells: _cells,
            table: _table,
            going: _going,
            lines: _lines,
            leaving: _leaving,
            sleepers: _sleepers,
            notified: _,
            runs: _runs,
            kind: _,
            accepted: _,
        } = self;
    }
}

impl<F, T, X> Solo<F, T, X> {
    /// An executor of at most `limit` futures at a time. The places of its two queues are taken here.
    pub fn new(alloc: Global, limit: usize, kind: Kind) -> Result<Self, NoMemory>
        requires { 0 < limit }
        ensures { IfOk result (λ s. solo.IsNew limit kind s) }
    {
        match Lines::new(alloc, limit) {
            Ok(lines) => match Line::new(alloc, limit) {
                Ok(leaving) => Ok(Solo {
                    cells: Cells::new(alloc),
                    table: Table::new(alloc, limit),
                    going: Table::new(alloc, limit),
                    lines,
                    leaving,
                    sleepers: Sleepers::new(alloc),
                    notified: true,
                    runs: OwnQueues::new(alloc),
                    kind,
                    accepted: 0,
                }),
                Err(error) => Err(error),
            },
            Err(error) => Err(error),
        }
    }

    /// Whether each future that was accepted is dropped.
    pub fn is_empty(&self) -> bool
        ensures { result ≡ solo.is_empty self.now }
    {
        self.table.is_empty()
    }

    /// How many futures that were accepted aren't dropped.
    pub fn future_count(&self) -> usize
        ensures { result ≡ length self.now.table.entries }
    {
        self.table.len()
    }

    /// How many tasks are queued in both queues. The count stays at its greatest number.
    pub fn queue_length(&self) -> usize
        ensures { result ≡ solo.queue_length self.now }
    {
        self.lines
            .len(Mark::Urgent)
            .saturating_add(self.lines.len(Mark::Plain))
    }

    /// How many tasks stand in the own queue at this place of the list that runs walk round, if there is one.
    pub fn run_length(&self, at: usize) -> Option<usize>
        ensures { result ≡ own.length_at at self.now.runs }
    {
        self.runs.length_at(at)
    }

    /// How many ticks and runs sleep.
    pub fn sleeper_count(&self) -> usize
        ensures { result ≡ self.now.sleepers.count }
    {
        self.sleepers.count()
    }

    /// Accepts a future with this mark, and queues its task. A refused future comes back, and nothing changes.
    pub fn spawn(&mut self, future: F, mark: Mark) -> Result<Spawned<X>, SpawnError<F>>
        ensures { solo.Spawns mark future self.old result self.new }
    {
        match self.accept(future, mark) {
            Ok(task) => {
                let told = self.schedule(task);
                Ok(Spawned { task, told })
            }
            Err(refused) => Err(refused),
        }
    }

    /// The first half of `spawn`: the task isn't queued yet.
    fn accept(&mut self, future: F, mark: Mark) -> Result<Task, SpawnError<F>>
        ensures { solo.Accepting mark future self.old result self.new }
    {
        let is_held = match self.kind {
            Kind::Owned => true,
            Kind::Static => false,
        };
        match self
            .table
            .accept(&mut self.cells, self.accepted, is_held, mark, future)
        {
            Ok(task) => {
                self.accepted = self.accepted.saturating_add(1);
                Ok(task)
            }
            Err(refused) => Err(refused),
        }
    }

    /// The first half of a `try_tick`: the first task of the queue that the turn names, or else of the other one, and a sleeper
    /// that is told of the others.
    #[inline(always)]
    pub fn take(&mut self) -> Taken<F, X>
        ensures solo { self.new ≡ solo.taken self.old }
        ensures taken { result ≡ solo.take_answer self.old }
    {
        match self.lines.search().task {
            Some(task) => {
                let sleeper = self.tell();
                let found = self.begin(task);
                Taken { found, sleeper }
            }
            None => Taken {
                found: Found::Nothing,
                sleeper: None,
            },
        }
    }

    /// Ends the poll of a future. One that has given its output is dropped before this call.
    #[inline(always)]
    pub fn settle(&mut self, lent: Lent, back: Back<F, T>) -> Owed<F, T, X>
        ensures solo { self.new ≡ solo.settled lent back self.old }
        ensures owed { result ≡ solo.settle_answer lent back self.old }
    {
        match back {
            Back::Ready(output) => self.settle_ready(lent, output),
            Back::Pending(future) => self.settle_pending(lent, future),
        }
    }

    #[inline(always)]
    fn settle_ready(&mut self, lent: Lent, output: T) -> Owed<F, T, X>
        ensures solo { self.new ≡ solo.settled_ready lent output self.old }
        ensures owed { result ≡ solo.settle_ready_answer lent output self.old }
    {
        let Lent { task, place } = lent;
        let Left { future, told } = self.leave(place);
        let Told { sleeper, returned } = told;
        let Ended { output, awaiter } = self.cells.settle_ready(task, output);
        self.cells.tidy(task);
        Owed {
            future,
            rest: None,
            output,
            awaiter,
            sleeper,
            old: None,
            returned,
        }
    }

    #[inline(always)]
    fn settle_pending(&mut self, lent: Lent, future: F) -> Owed<F, T, X>
        ensures solo { self.new ≡ solo.settled_pending lent future self.old }
        ensures owed { result ≡ solo.settle_pending_answer lent future self.old }
    {
        let Lent { task, place } = lent;
        match self.cells.settle_pending(task, place) {
            After::Drop => hands(Some(future), Some(Lent { task, place }), silent()),
            After::Unknown => hands(Some(future), None, silent()),
            After::Rest => hands(self.table.put_back(place, future), None, silent()),
            After::Queue => {
                let over = self.table.put_back(place, future);
                hands(over, None, self.schedule(task))
            }
        }
    }

    /// Ends what began with a future that was to be dropped, which it is.
    #[inline(always)]
    pub fn finish(&mut self, lent: Lent) -> Owed<F, T, X>
        ensures solo { self.new ≡ solo.finished lent self.old }
        ensures owed { result ≡ solo.finish_answer lent self.old }
    {
        let Lent { task, place } = lent;
        let Left { future, told } = self.leave(place);
        let Told { sleeper, returned } = told;
        let Awaited { awaiter, old } = after_finish(self.cells.finish(task));
        self.cells.tidy(task);
        Owed {
            future,
            rest: None,
            output: None,
            awaiter,
            sleeper,
            old,
            returned,
        }
    }

    /// Wakes a task, by reference: it is queued, where it was idle.
    #[inline(always)]
    pub fn wake(&mut self, task: Task) -> Told<X>
        ensures solo { self.new ≡ solo.woken task self.old }
        ensures told { result ≡ solo.wake_answer task self.old }
    {
        let is_due = self.cells.wake(task);
        self.schedule_if(is_due, task)
    }

    /// Closes a task, where it is open and unfinished. One that was idle is queued, so that its future is dropped.
    pub fn cancel(&mut self, task: Task) -> Owed<F, T, X>
        ensures solo { self.new ≡ solo.cancelled task self.old }
        ensures owed { result ≡ solo.cancel_answer task self.old }
    {
        let Cancel { queue, awaiter } = self.cells.cancel(task);
        let Told { sleeper, returned } = self.schedule_if(queue.is_some(), task);
        Owed {
            future: None,
            rest: None,
            output: None,
            awaiter,
            sleeper,
            old: None,
            returned,
        }
    }

    /// Gives the handle up.
    pub fn detach(&mut self, task: Task) -> Owed<F, T, X>
        ensures solo { self.new ≡ solo.detached task self.old }
        ensures owed { result ≡ solo.detach_answer task self.old }
    {
        let Detach { queue, output } = self.cells.detach(task);
        let Told { sleeper, returned } = self.schedule_if(queue.is_some(), task);
        self.cells.tidy(task);
        Owed {
            future: None,
            rest: None,
            output,
            awaiter: None,
            sleeper,
            old: None,
            returned,
        }
    }

    /// Polls the handle, with a copy of the waker that is called when there is an answer.
    pub fn poll(&mut self, task: Task, waker: SoloWaker<X>) -> Polled<T, SoloWaker<X>>
        ensures solo { self.new ≡ solo.polled task waker self.old }
        ensures answer { result ≡ solo.poll_answer task waker self.old }
    {
        self.cells.poll(task, waker)
    }

    /// One more waker of the task. False, and nothing changes, from 2^40 references on.
    #[inline(always)]
    pub fn hold(&mut self, task: Task) -> bool
        ensures solo { self.new ≡ solo.held task self.old }
        ensures few { result ≡ solo.may_hold task self.old }
    {
        self.cells.hold(task)
    }

    /// One waker less. A task that nobody could wake or ask for then is closed and queued.
    #[inline(always)]
    pub fn release(&mut self, task: Task) -> Told<X>
        ensures solo { self.new ≡ solo.released task self.old }
        ensures told { result ≡ solo.release_answer task self.old }
    {
        self.let_go(task)
    }

    /// Wakes a task by a waker of it, which goes.
    pub fn wake_and_release(&mut self, task: Task) -> Told<X>
        ensures solo { self.new ≡ solo.woken_and_released task self.old }
        ensures told { result ≡ solo.wake_and_release_answer task self.old }
    {
        let is_woken = self.cells.wake(task);
        let is_closed = self.cells.release(task);
        let told = self.schedule_if(is_woken || is_closed, task);
        self.cells.tidy(task);
        told
    }

    /// Whether the task's future is dropped or is going to be.
    pub fn is_finished(&self, task: Task) -> bool
        ensures { result ≡ solo.is_finished task self.now }
    {
        self.cells.is_finished(task)
    }

    /// Whether a poll of the handle has to leave its waker, as there is neither an output nor an end.
    pub fn must_wait(&self, task: Task) -> bool
        ensures { result ≡ solo.must_wait task self.now }
    {
        self.cells.must_wait(task)
    }
}
