//! The tasks of an executor of one owner, each under its name. A name that is used up finds nothing, and changes nothing.
ghost use Rattle.std.specs.Prelude.{◌≡◌, [], true, false, Some, None, OnOk, IsOk};
ghost use Rattle.task_moves.specs.declared.local_task.answers.Finish.TheVariants.{Nothing};
ghost use Rattle.task_moves.specs.declared.local_task.answers.Polled.TheVariants.{Closed};
ghost use Rattle.slab.specs.Slab.{get, Updates, HasRoomFor};
ghost use Rattle.solo.specs.declared.cells.After.TheVariants.{Unknown};
ghost use Rattle.executor_parts.specs.declared.mark.Mark.TheVariants.{Plain};
ghost use Rattle.solo.specs.Cells as cells;
ghost use Rattle.solo.specs.Cells.{changed, asked, tidied};

use crate::names::{SoloWaker, Task};
use executor_parts::{EntryPlace, Mark};
use slab::Slab;
use std::alloc::{AllocError, Global};
use task_moves::LocalTask;
use task_moves::local_task::{Back, Cancel, Detach, Finish, Polled, Settled, Start};

/// A task with its number. Its future sleeps in the executor's table, and the task has its place.
#[derive(Drop)]
pub struct Cell<T, X> {
    number: u64,
    task: LocalTask<EntryPlace, T, SoloWaker<X>, Mark>,
}

/// All tasks that somebody can still reach.
#[derive(Drop)]
pub struct Cells<T, X> {
    slab: Slab<Cell<T, X>>,
}

/// What an executor does after a poll that gave no output.
#[derive(Clone, Copy, Debug, PartialEq, Eq)]
pub enum After {
    /// The task is queued.
    Queue,
    /// The task waits for a wake.
    Rest,
    /// The future is dropped.
    Drop,
    /// No such task is being polled.
    Unknown,
}

/// What goes out of a task that a poll has finished.
#[must_use]
#[derive(Drop)]
pub struct Ended<T, X> {
    /// The output that nobody is left to be given to.
    pub output: Option<T>,
    /// Who awaits the task.
    pub awaiter: Option<SoloWaker<X>>,
}

impl<T, X> Cells<T, X> {
    /// No tasks.
    pub fn new(alloc: Global) -> Self
        ensures empty { result.slab.slots ≡ [] }
    {
        Cells {
            slab: Slab::new(alloc),
        }
    }

    /// Room for one more. Refused, nothing changes.
    pub fn reserve(&mut self) -> Result<(), AllocError>
        ensures room { OnOk result (HasRoomFor self.new.slab 1) }
        ensures succeeds { HasRoomFor self.old.slab 1 → IsOk result }
        ensures slots { self.new.slab.slots ≡ self.old.slab.slots }
        ensures key { self.new.slab.vacant_key ≡ self.old.slab.vacant_key }
    {
        self.slab.reserve(1)
    }

    /// A new task with this number and this mark comes: it has its handle and, where `is_held`, one waker.
    pub fn insert(&mut self, number: u64, place: EntryPlace, is_held: bool, mark: Mark) -> Task
        requires { HasRoomFor self.old.slab 1 }
        ensures number { result.number ≡ number }
        ensures free { get self.old.slab result.key ≡ None }
        ensures entered { Updates self.old.slab self.new.slab result.key (cells.entered number place is_held mark) }
    {
        let mut task = LocalTask::marked(place, mark);
        if is_held {
            task.hold();
        }
        let key = self.slab.insert_reserved(Cell { number, task });
        Task { key, number }
    }

    /// In which queue the task belongs. One that isn't there is plain.
    #[inline(always)]
    pub fn mark(&self, task: Task) -> Mark
        ensures { result ≡ asked cells.mark Plain task self.now }
    {
        match self.slab.get(task.key) {
            Some(cell) => {
                if cell.number == task.number {
                    *cell.task.metadata()
                } else {
                    Mark::Plain
                }
            }
            None => Mark::Plain,
        }
    }

    /// Wakes the task. True where it is to be queued.
    #[inline(always)]
    pub fn wake(&mut self, task: Task) -> bool
        ensures cells { self.new ≡ changed cells.woken task self.old }
        ensures queue { result ≡ asked cells.wake_queues false task self.old }
    {
        match self.slab.get_mut(task.key) {
            Some(cell) => cell.number == task.number && cell.task.wake().is_some(),
            None => false,
        }
    }

    /// One more waker. False, and nothing is changed, from 2^40 references on.
    #[inline(always)]
    pub fn hold(&mut self, task: Task) -> bool
        ensures cells { self.new ≡ changed cells.held task self.old }
        ensures few { result ≡ asked cells.may_hold false task self.old }
    {
        match self.slab.get_mut(task.key) {
            Some(cell) => cell.number == task.number && cell.task.hold(),
            None => false,
        }
    }

    /// One waker less. True where the task is to be queued.
    #[inline(always)]
    pub fn release(&mut self, task: Task) -> bool
        ensures cells { self.new ≡ changed cells.released task self.old }
        ensures queue { result ≡ asked cells.release_queues false task self.old }
    {
        match self.slab.get_mut(task.key) {
            Some(cell) => cell.number == task.number
                && cell.task.has_waker()
                && cell.task.release().is_some(),
            None => false,
        }
    }

    /// Closes the task, where it is open and unfinished.
    pub fn cancel(&mut self, task: Task) -> Cancel<SoloWaker<X>>
        ensures cells { self.new ≡ changed cells.cancelled task self.old }
        ensures queue { result.queue ≡ asked cells.cancel_queues None task self.old }
        ensures awaiter { result.awaiter ≡ asked cells.cancel_calls None task self.old }
    {
        match self.slab.get_mut(task.key) {
            Some(cell) => {
                if cell.number == task.number {
                    cell.task.cancel()
                } else {
                    Cancel {
                        queue: None,
                        awaiter: None,
                    }
                }
            }
            None => Cancel {
                queue: None,
                awaiter: None,
            },
        }
    }

    /// Gives the handle up.
    pub fn detach(&mut self, task: Task) -> Detach<T>
        ensures cells { self.new ≡ changed cells.detached task self.old }
        ensures queue { result.queue ≡ asked cells.detach_queues None task self.old }
        ensures output { result.output ≡ asked cells.detach_drops None task self.old }
    {
        match self.slab.get_mut(task.key) {
            Some(cell) => {
                if cell.number == task.number {
                    cell.task.detach()
                } else {
                    Detach {
                        queue: None,
                        output: None,
                    }
                }
            }
            None => Detach {
                queue: None,
                output: None,
            },
        }
    }

    /// Polls the handle with a waker. Without a task, or without its handle, it is closed.
    pub fn poll(&mut self, task: Task, waker: SoloWaker<X>) -> Polled<T, SoloWaker<X>>
        ensures cells { self.new ≡ changed (cells.polled waker) task self.old }
        ensures answer { result ≡ asked (cells.poll_answer waker) (Closed waker) task self.old }
    {
        match self.slab.get_mut(task.key) {
            Some(cell) => {
                if cell.number == task.number && cell.task.has_handle() {
                    cell.task.poll(waker)
                } else {
                    Polled::Closed { spare: waker }
                }
            }
            None => Polled::Closed { spare: waker },
        }
    }

    /// Begins the turn of a queued task: where its future is, and whether it is polled or dropped.
    #[inline(always)]
    pub fn start(&mut self, task: Task) -> Option<Start<EntryPlace>>
        ensures cells { self.new ≡ changed cells.started task self.old }
        ensures answer { result ≡ asked cells.start_answer None task self.old }
    {
        match self.slab.get_mut(task.key) {
            Some(cell) => {
                if cell.number == task.number && cell.task.is_queued() {
                    Some(cell.task.start())
                } else {
                    None
                }
            }
            None => None,
        }
    }

    /// The poll gave an output, and the future is dropped. An output without a task that is being polled comes back.
    #[inline(always)]
    pub fn settle_ready(&mut self, task: Task, output: T) -> Ended<T, X>
        ensures cells { self.new ≡ changed (cells.ended_ready output) task self.old }
        ensures output { result.output ≡ asked (cells.ready_drops output) (Some output) task self.old }
        ensures awaiter { result.awaiter ≡ asked (cells.ready_calls output) None task self.old }
    {
        match self.slab.get_mut(task.key) {
            Some(cell) => {
                if cell.number == task.number && cell.task.is_lent() {
                    match cell.task.settle(Back::Ready(output)) {
                        Settled::Finish { output, awaiter } => Ended { output, awaiter },
                        _ => unreachable!(),
                    }
                } else {
                    Ended {
                        output: Some(output),
                        awaiter: None,
                    }
                }
            }
            None => Ended {
                output: Some(output),
                awaiter: None,
            },
        }
    }

    /// The poll gave no output: the future comes back to this place, if it isn't dropped.
    #[inline(always)]
    pub fn settle_pending(&mut self, task: Task, place: EntryPlace) -> After
        ensures cells { self.new ≡ changed (cells.ended_pending place) task self.old }
        ensures answer { result ≡ asked cells.pending_answer Unknown task self.old }
    {
        match self.slab.get_mut(task.key) {
            Some(cell) => {
                if cell.number == task.number && cell.task.is_lent() {
                    match cell.task.settle(Back::Pending(place)) {
                        Settled::Queue(_) => After::Queue,
                        Settled::Rest => After::Rest,
                        Settled::Drop(_) => After::Drop,
                        Settled::Finish {
                            output: _output,
                            awaiter: _awaiter,
                        } => unreachable!(),
                    }
                } else {
                    After::Unknown
                }
            }
            None => After::Unknown,
        }
    }

    /// A queued task loses its turn, as by the drop of a Runnable: it is closed. The answer is where its future is, which is
    /// dropped before `finish`.
    pub fn retract(&mut self, task: Task) -> Option<EntryPlace>
        ensures cells { self.new ≡ changed cells.retracted task self.old }
        ensures answer { result ≡ asked cells.retract_answer None task self.old }
    {
        match self.slab.get_mut(task.key) {
            Some(cell) => {
                if cell.number == task.number && cell.task.is_queued() {
                    Some(cell.task.retract())
                } else {
                    None
                }
            }
            None => None,
        }
    }

    /// Ends what began with a future that was to be dropped, which it is.
    #[inline(always)]
    pub fn finish(&mut self, task: Task) -> Finish<SoloWaker<X>>
        ensures cells { self.new ≡ changed cells.finished task self.old }
        ensures answer { result ≡ asked cells.finish_answer Nothing task self.old }
    {
        match self.slab.get_mut(task.key) {
            Some(cell) => {
                if cell.number == task.number && cell.task.is_dropping() {
                    cell.task.finish()
                } else {
                    Finish::Nothing
                }
            }
            None => Finish::Nothing,
        }
    }

    /// The task goes, where nobody can reach it and it holds nothing more.
    #[inline(always)]
    pub fn tidy(&mut self, task: Task)
        ensures { self.new ≡ tidied task self.old }
    {
        let is_over = match self.slab.get(task.key) {
            Some(cell) => cell.number == task.number && cell.task.is_spent(),
            None => false,
        };
        if is_over {
            let Cell { number, task } = self.slab.remove(task.key);
            let _ = number;
            let _mark = task.end();
        }
    }

    /// Whether the task's future is dropped or is going to be, or it isn't there.
    pub fn is_finished(&self, task: Task) -> bool
        ensures { result ≡ asked cells.is_finished true task self.now }
    {
        match self.slab.get(task.key) {
            Some(cell) => cell.number != task.number || cell.task.is_finished(),
            None => true,
        }
    }

    /// Whether a poll of the handle has to leave its waker.
    pub fn must_wait(&self, task: Task) -> bool
        ensures { result ≡ asked cells.must_wait false task self.now }
    {
        match self.slab.get(task.key) {
            Some(cell) => cell.number == task.number
                && cell.task.has_handle()
                && cell.task.must_wait(),
            None => false,
        }
    }
}
