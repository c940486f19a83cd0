//! What all kinds of executors have in common, and the rows of calls on one.
use crate::parts::Job;
use crate::polled::{Polled, poll_ended};
use crate::report::{Call, Report};
use crate::rows::{Ended, Look, Trial, try_each};

/// What came of a spawn of many: how many were accepted, the name of the one that came back, and of the next in the iterator.
#[derive(Drop)]
pub struct Many {
    pub accepted: u64,
    pub back: Option<u64>,
    pub next: Option<u64>,
}

/// An executor of any kind, whose handles are `H`, its ticks `T` and its runs `N`. They are polled by its own outside waker.
pub trait Runs<H: Drop, T: Drop, N: Drop> {
    /// A future of this name that wakes itself so often.
    fn job(&self, name: u64, wakes: u64) -> Job;

    /// How many futures were dropped.
    fn drops(&self) -> u64;

    /// A refused future comes back.
    fn spawn(&self, job: Job) -> Result<H, Job>;

    /// Spawns jobs of these names and drops their handles. A static executor has no such call: nothing.
    fn spawn_many(&self, from: u64, end: u64) -> Option<Many>;

    fn tick(&self) -> Option<T>;

    /// A refused future comes back. The first is by `run`, the second by `run_from`.
    fn run(&self, own: Job, is_seeded: bool) -> Result<N, Job>;

    fn try_tick(&self) -> bool;

    /// Nothing, where there is no such call.
    fn is_empty(&self) -> Option<bool>;

    fn poll_tick(&self, tick: &mut T) -> Polled;

    fn poll_run(&self, run: &mut N) -> Polled;

    fn poll_handle(&self, handle: &mut H) -> Polled;

    /// A number made of what it shows: all, or all before its runs' own queues and its sleepers.
    fn shown(&self, all: bool) -> u64;
}

/// What becomes of a handle.
#[derive(Clone, Copy)]
pub enum Turn {
    Fallible,
    Cancel,
    Detach,
    Drop,
}

/// A handle, of which code that is generic over it lets go: what it holds stands at lifetimes that other code can't hand on.
pub trait Turns: Drop {
    /// It becomes another, or it goes.
    fn turned(self, turn: Turn) -> Option<Self>;
}

/// A call on an executor.
#[derive(Clone, Copy)]
pub enum Row {
    /// A job of this name that wakes itself so often. Its handle is kept.
    Spawn(u64, u64),
    /// Jobs of the names 1 to 3 in one call, whose handles are dropped.
    SpawnMany,
    Tick,
    Run,
    RunFrom,
    /// A tick that finds nothing may sleep behind a refusal.
    PollTick(Polled),
    /// A run that finds nothing may sleep behind a refusal.
    PollRun(Polled),
    /// A run that finds tasks has run them behind a refusal.
    WorkRun(Polled),
    /// The kept handle is polled.
    Poll(Polled),
    /// The kept handle becomes another, or it goes.
    Turn(Turn),
    DropTick,
    DropRun,
    /// Whether a task was run.
    TryTick(bool),
    /// Tasks are run until none is queued, and then all futures are dropped.
    Drain,
}

/// What is made on each executor. Calls that take no memory stand between the others.
pub const ROWS: &[Row] = &[
    Row::Tick,
    Row::PollTick(Polled::Pending),
    Row::Spawn(7, 0),
    Row::PollTick(Polled::Gave(0)),
    Row::Poll(Polled::Gave(7)),
    Row::Poll(Polled::Closed),
    Row::Turn(Turn::Drop),
    Row::DropTick,
    Row::Spawn(8, 1),
    Row::Poll(Polled::Pending),
    Row::TryTick(true),
    Row::Poll(Polled::Pending),
    Row::TryTick(true),
    Row::Poll(Polled::Gave(8)),
    Row::Turn(Turn::Drop),
    Row::Spawn(9, 0),
    Row::Turn(Turn::Fallible),
    Row::Poll(Polled::Pending),
    Row::Drain,
    Row::Poll(Polled::Gave(9)),
    Row::Turn(Turn::Drop),
    Row::Spawn(10, 0),
    Row::Turn(Turn::Cancel),
    Row::Poll(Polled::Pending),
    Row::TryTick(true),
    Row::Poll(Polled::Closed),
    Row::Turn(Turn::Drop),
    Row::Run,
    Row::PollRun(Polled::Pending),
    Row::SpawnMany,
    Row::Spawn(11, 0),
    Row::WorkRun(Polled::Pending),
    Row::Poll(Polled::Gave(11)),
    Row::Turn(Turn::Drop),
    Row::DropRun,
    Row::RunFrom,
    Row::DropRun,
    Row::Drain,
    Row::Spawn(12, 1),
    Row::Turn(Turn::Detach),
    Row::Drain,
    Row::Spawn(13, 1),
    Row::Turn(Turn::Drop),
    Row::Drain,
    Row::Tick, // a notified tick is dropped, and the task of which it was notified still has to be run
    Row::PollTick(Polled::Pending),
    Row::Spawn(14, 0),
    Row::Turn(Turn::Detach),
    Row::DropTick,
    Row::TryTick(true),
    Row::Drain,
];

/// A run takes 200 in a poll, and these are 240: it is dropped, and they are still due.
pub const LONG: &[Row] = &[
    Row::Spawn(15, 79),
    Row::Turn(Turn::Detach),
    Row::Spawn(16, 79),
    Row::Turn(Turn::Detach),
    Row::Spawn(17, 79),
    Row::Turn(Turn::Detach),
    Row::RunFrom,
    Row::WorkRun(Polled::Pending),
    Row::DropRun,
    Row::TryTick(true),
    Row::Drain,
];

/// An executor, and what was made of it.
#[derive(Drop)]
struct Stage<E, H, T, N> {
    executor: E,
    /// The kept handle.
    handle: Option<H>,
    tick: Option<T>,
    run: Option<N>,
    /// A future that a refused call handed back.
    back: Option<Job>,
    /// The name of the next that is spawned among many.
    next: u64,
}

impl<E: Runs<H, T, N> + Drop, H: Turns, T: Drop, N: Drop> Stage<E, H, T, N> {
    fn new(executor: E) -> Stage<E, H, T, N> {
        Stage {
            executor,
            handle: None,
            tick: None,
            run: None,
            back: None,
            next: 1,
        }
    }

    fn job(&mut self, name: u64, wakes: u64) -> Job {
        match self.back.take() {
            Some(job) => job,
            None => self.executor.job(name, wakes),
        }
    }

    /// Refused, where the future of this name came back.
    fn came_back(&mut self, job: Job, name: u64) -> Ended {
        let is_same = job.name == name;
        self.back = Some(job);
        if is_same {
            Ended::Refused
        } else {
            Ended::Wrong
        }
    }

    fn spawn(&mut self, name: u64, wakes: u64) -> Ended {
        let job = self.job(name, wakes);
        match self.executor.spawn(job) {
            Ok(handle) => {
                self.handle = Some(handle);
                Ended::Well
            }
            Err(job) => self.came_back(job, name),
        }
    }

    fn make_tick(&mut self) -> Ended {
        match self.executor.tick() {
            Some(tick) => {
                self.tick = Some(tick);
                Ended::Well
            }
            None => Ended::Refused,
        }
    }

    fn make_run(&mut self, is_seeded: bool) -> Ended {
        let job = self.job(0, u64::MAX);
        match self.executor.run(job, is_seeded) {
            Ok(run) => {
                self.run = Some(run);
                Ended::Well
            }
            Err(job) => self.came_back(job, 0),
        }
    }

    /// Where the call is refused the handles so far were answered, the next future came back, and the rest is in the iterator.
    fn spawn_many(&mut self) -> Ended {
        let Some(many) = self.executor.spawn_many(self.next, 4) else {
            return Ended::Well;
        };
        self.next = self.next.saturating_add(many.accepted);
        let Some(back) = many.back else {
            return Ended::of(self.next == 4);
        };
        let following = back.saturating_add(1);
        let is_next = match many.next {
            Some(name) => name == following,
            None => following == 4,
        };
        if is_next & (back == self.next) {
            Ended::Refused
        } else {
            Ended::Wrong
        }
    }

    fn drain(&self) -> Ended {
        for _ in 0..1000 {
            if !self.executor.try_tick() {
                return Ended::of(self.executor.is_empty() != Some(false));
            }
        }
        Ended::Wrong
    }

    fn turn(&mut self, turn: Turn) -> Ended {
        match self.handle.take() {
            Some(handle) => {
                self.handle = handle.turned(turn);
                Ended::Well
            }
            None => Ended::Wrong,
        }
    }
}

/// Makes these calls on an executor.
pub fn play<E, H: Turns, T: Drop, N: Drop>(executor: E, rows: &[Row], report: &mut Report)
where
    E: Runs<H, T, N> + Drop,
{
    let mut stage: Stage<E, H, T, N> = Stage::new(executor);
    try_each(&mut stage, rows, report);
}

/// Drops what is there.
fn let_go<T: Drop>(place: &mut Option<T>) -> Ended {
    match place.take() {
        Some(value) => {
            drop(value);
            Ended::Well
        }
        None => Ended::Wrong,
    }
}

impl<E: Runs<H, T, N> + Drop, H: Turns, T: Drop, N: Drop> Trial for Stage<E, H, T, N> {
    type Row = Row;

    fn name(&self, row: Row) -> Call {
        match row {
            Row::Spawn(_, _) => Call::Spawn,
            Row::SpawnMany => Call::SpawnMany,
            Row::Tick => Call::Tick,
            Row::Run => Call::Run,
            Row::RunFrom => Call::RunFrom,
            Row::PollTick(_) => Call::PollTick,
            Row::PollRun(_) | Row::WorkRun(_) => Call::PollRun,
            Row::Poll(_) => Call::PollHandle,
            _ => Call::Other,
        }
    }

    fn look(&self, row: Row) -> Look {
        let (shown, drops) = (self.executor.shown(false), self.executor.drops());
        match row {
            Row::SpawnMany => Look { shown: 0, drops },
            Row::WorkRun(_) => Look { shown: 0, drops: 0 },
            Row::PollTick(_) | Row::PollRun(_) => Look { shown, drops },
            _ => Look {
                shown: self.executor.shown(true),
                drops,
            },
        }
    }

    fn make(&mut self, row: Row) -> Ended {
        match row {
            Row::Spawn(name, wakes) => self.spawn(name, wakes),
            Row::SpawnMany => self.spawn_many(),
            Row::Tick => self.make_tick(),
            Row::Run => self.make_run(false),
            Row::RunFrom => self.make_run(true),
            Row::PollTick(wanted) => {
                let polled = match &mut self.tick {
                    Some(tick) => Some(self.executor.poll_tick(tick)),
                    None => None,
                };
                poll_ended(polled, wanted)
            }
            Row::PollRun(wanted) | Row::WorkRun(wanted) => {
                let polled = match &mut self.run {
                    Some(run) => Some(self.executor.poll_run(run)),
                    None => None,
                };
                poll_ended(polled, wanted)
            }
            Row::Poll(wanted) => {
                let polled = match &mut self.handle {
                    Some(handle) => Some(self.executor.poll_handle(handle)),
                    None => None,
                };
                poll_ended(polled, wanted)
            }
            Row::Turn(turn) => self.turn(turn),
            Row::DropTick => let_go(&mut self.tick),
            Row::DropRun => let_go(&mut self.run),
            Row::TryTick(wanted) => Ended::of(self.executor.try_tick() == wanted),
            Row::Drain => self.drain(),
        }
    }
}
