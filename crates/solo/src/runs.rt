//! Runs: each has a queue of its own, into which it steals from the executor's queues and from those of other runs.
ghost use Rattle.std.specs.Prelude.{◌≡◌, IfOk, IfErr, OnOk};
ghost use Rattle.solo.specs.Runs as runs;

use crate::names::{SoloWaker, Task};
use crate::owed::Told;
use crate::own_queues::OwnQueue;
use crate::solo::Solo;
use crate::ticks::{Dropped, Look, Ticked, Ticker, WokeUp};
use std::alloc::AllocError;

/// At every 64th task that it has counted in its life, a run steals from both of the executor's queues.
const STEALS_AT: u64 = 64;

/// After 200 tasks a run lets others go first.
const PAUSES_AT: u64 = 200;

/// A run, as its executor knows it, beside its `Ticker`. It has no drop: it ends by `run_leave`.
#[must_use]
pub struct Runner {
    // Under which its own queue is kept.
    pub(crate) number: u64,
    // How many tasks it has counted since it last stole from the executor's queues for their number.
    pub(crate) counted: u64,
    // How many it has taken since it last let others go first.
    pub(crate) taken: u64,
}

/// What a run's look hands out.
#[must_use]
pub struct Ran<F, X> {
    /// As of a tick.
    pub ticked: Ticked<F, X>,
    /// Once the task is run, the run calls its own waker, and is pending: others go first.
    pub gives_way: bool,
    /// It has walked round the other runs' queues, from the starting word on.
    pub has_walked: bool,
}

/// A run's search has found no task.
#[must_use]
pub struct Missed {
    /// The run's ticker comes back.
    pub ticker: Ticker,
    /// It has walked round the other runs' queues, from the starting word on.
    pub has_walked: bool,
}

/// A run that leaves, until nothing is left in its own queue. It has no drop: it ends by `run_drain`.
#[must_use]
pub struct Leaving {
    own: Option<OwnQueue>,
    ticker: Ticker,
}

/// One more of what a run that leaves hands out.
#[must_use]
pub enum RunLeft<X> {
    /// A task of its own queue was scheduled. More may follow.
    Scheduled(Leaving, Told<X>),
    /// The run is gone.
    Gone(Dropped<X>),
}

/// What a search has found.
pub struct Sought {
    /// The task that is to be run.
    pub(crate) task: Option<Task>,
    /// It has walked round the other runs' queues.
    pub(crate) has_walked: bool,
}

impl Runner {
    fn new(number: u64) -> Runner
        ensures { result ≡ runs.new_runner number }
    {
        Runner {
            number,
            counted: 0,
            taken: 0,
        }
    }

    /// One more task is counted. True at each 64th.
    fn count(&mut self) -> bool
        ensures runner { self.new ≡ runs.counted self.old }
        ensures full { result ≡ runs.is_steal_due self.old }
    {
        if self.counted >= STEALS_AT - 1 {
            self.counted = 0;
            return true;
        }
        self.counted += 1;
        false
    }

    /// One more task is taken. True at the 200th since this was last true.
    fn take(&mut self) -> bool
        ensures runner { self.new ≡ runs.taken self.old }
        ensures full { result ≡ runs.gives_way self.old }
    {
        if self.taken >= PAUSES_AT - 1 {
            self.taken = 0;
            return true;
        }
        self.taken += 1;
        false
    }
}

impl<F, T, X> Solo<F, T, X> {
    /// A new run. Its room among the sleepers and its own queue are taken here; refused, nothing changes.
    pub fn run(&mut self) -> Result<(Runner, Ticker), AllocError>
        ensures ok { OnOk result (self.new ≡ runs.made self.old) }
        ensures runner { IfOk result (λ both. both ≡ (runs.new_runner self.old.runs.made, runs.awake)) }
        ensures err { IfErr result (λ _. self.new ≡ self.old) }
    {
        match self.sleepers.make_room() {
            Ok(room) => match self.runs.open() {
                Ok(number) => Ok((Runner::new(number), Ticker::Awake(room))),
                Err(error) => {
                    self.sleepers.give_back(room);
                    Err(error)
                }
            },
            Err(error) => Err(error),
        }
    }

    /// The first poll of a run begins: from now on other runs look at its own queue. At a later poll nothing changes.
    pub fn run_begin(&mut self, runner: &Runner)
        ensures { self.new ≡ runs.begun runner.now self.old }
    {
        self.runs.list(runner.number);
    }

    /// A run looks for a task, and walks from this starting word on. Where there is none it falls asleep with this copy of its
    /// waker.
    pub fn run_take(
        &mut self,
        runner: &mut Runner,
        ticker: Ticker,
        waker: SoloWaker<X>,
        start: u64,
    ) -> Ran<F, X>
        ensures solo { self.new ≡ runs.took runner.old ticker waker start self.old }
        ensures runner { runner.new ≡ runs.runner_after runner.old start self.old }
        ensures ran { result ≡ runs.take_answer runner.old ticker waker start self.old }
    {
        let Sought { task, has_walked } = self.seek(runner.number, start);
        match task {
            Some(task) => self.run_found(runner, ticker, Some(waker), task, has_walked),
            None => Ran {
                ticked: self.fall_asleep(ticker, waker),
                gives_way: false,
                has_walked,
            },
        }
    }

    /// A run looks for a task without a waker. Where there is none its ticker comes back, and may fall asleep by `tick_sleep`.
    pub fn run_search(
        &mut self,
        runner: &mut Runner,
        ticker: Ticker,
        start: u64,
    ) -> Result<Ran<F, X>, Missed>
        ensures solo { self.new ≡ runs.searched runner.old ticker start self.old }
        ensures runner { runner.new ≡ runs.runner_after runner.old start self.old }
        ensures ran { result ≡ runs.search_answer runner.old ticker start self.old }
    {
        let Sought { task, has_walked } = self.seek(runner.number, start);
        match task {
            Some(task) => Ok(self.run_found(runner, ticker, None, task, has_walked)),
            None => Err(Missed { ticker, has_walked }),
        }
    }

    /// A run has taken a task: it wakes up, and a sleeper is told. At every 64th it steals from both of the executor's queues
    /// before the task's turn begins.
    fn run_found(
        &mut self,
        runner: &mut Runner,
        ticker: Ticker,
        spare: Option<SoloWaker<X>>,
        task: Task,
        has_walked: bool,
    ) -> Ran<F, X>
        ensures solo { self.new ≡ runs.found runner.old ticker task self.old }
        ensures runner { runner.new ≡ runs.taken (runs.counted runner.old) }
        ensures ran { result ≡ runs.found_answer runner.old ticker spare task has_walked self.old }
    {
        let WokeUp { room, dropped } = self.wake_up(ticker);
        let Dropped { old, told } = dropped;
        let Told { sleeper, returned } = told;
        let sleeper = self.tell_unless(sleeper);
        let is_due = runner.count();
        self.steal_if(is_due, runner.number);
        let gives_way = runner.take();
        let found = self.begin(task);
        Ran {
            ticked: Ticked {
                ticker: Ticker::Awake(room),
                look: Look::Took(found),
                sleeper,
                old,
                spare,
                returned,
            },
            gives_way,
            has_walked,
        }
    }

    /// A run begins to leave: its own queue goes from the others. What is left in it comes out by `run_drain`.
    pub fn run_leave(&mut self, runner: Runner, ticker: Ticker) -> Leaving
        ensures solo { self.new ≡ runs.left runner self.old }
        ensures leaving { result ≡ runs.leave_answer runner ticker self.old }
    {
        let Runner {
            number,
            counted: _,
            taken: _,
        } = runner;
        Leaving {
            own: self.runs.close(number),
            ticker,
        }
    }

    /// One more of what a run that leaves has to do: each task of its own queue is scheduled, in order; then it leaves the
    /// sleepers as a tick does.
    pub fn run_drain(&mut self, leaving: Leaving) -> RunLeft<X>
        ensures solo { self.new ≡ runs.drained leaving self.old }
        ensures left { result ≡ runs.drain_answer leaving self.old }
    {
        let Leaving { own, ticker } = leaving;
        let mut own = own;
        match pop_of(&mut own) {
            Some(task) => {
                let told = self.schedule(task);
                RunLeft::Scheduled(Leaving { own, ticker }, told)
            }
            None => RunLeft::Gone(self.tick_leave(ticker)),
        }
    }
}

/// The first task of an own queue leaves it, where there is a queue.
fn pop_of(own: &mut Option<OwnQueue>) -> Option<Task>
    ensures first { result ≡ runs.first_left own.old }
    ensures rest { own.new ≡ runs.rest_left own.old }
{
    match own {
        Some(queue) => queue.pop(),
        None => None,
    }
}
