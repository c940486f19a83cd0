//! Two sources and three tasks, one section at a time, on one thread.
use crate::bell::Bell;
use crate::tasks::{Lane, Task};
use crate::words::{holds, same};
use std::alloc::AllocGlobal;
use std::process::Abort;

/// A way of a source: the first two are those of one source, the third is of another.
#[derive(Clone, Copy, Debug, PartialEq, Eq, Drop)]
pub enum At {
    First,
    Second,
    Third,
}

/// Who may take a step.
#[derive(Clone, Copy)]
pub enum Party {
    /// A task takes the next section of its poll.
    Task(usize),
    /// Something comes that can be read.
    Comes(At),
    /// The driver heard so: it sets the flag, and calls who waits.
    Told(At),
    /// The reactor is closed, this way.
    Closed(At),
}

/// All who may take one.
pub const PARTIES: [Party; 12] = [
    Party::Task(0),
    Party::Task(1),
    Party::Task(2),
    Party::Comes(At::First),
    Party::Comes(At::Second),
    Party::Comes(At::Third),
    Party::Told(At::First),
    Party::Told(At::Second),
    Party::Told(At::Third),
    Party::Closed(At::First),
    Party::Closed(At::Second),
    Party::Closed(At::Third),
];

/// Where each task reads one thing, how much comes each way, whether that is closed some time, and how many tasks at least come
/// to their end in each order.
#[derive(Clone, Copy)]
pub struct Row {
    pub tasks: [At; 3],
    pub come: [u64; 3],
    pub closes: [bool; 3],
    pub over: u64,
}

/// A game of one order. It has no drop: it comes to its end.
pub struct Game {
    lanes: Lanes,
    tasks: Tasks,
}

#[derive(Drop)]
struct Lanes {
    first: Lane,
    second: Lane,
    third: Lane,
}

struct Tasks {
    one: Task,
    two: Task,
    three: Task,
}

impl Lanes {
    fn of(&self, at: At) -> &Lane {
        match at {
            At::First => &self.first,
            At::Second => &self.second,
            At::Third => &self.third,
        }
    }

    fn of_mut(&mut self, at: At) -> &mut Lane {
        match at {
            At::First => &mut self.first,
            At::Second => &mut self.second,
            At::Third => &mut self.third,
        }
    }
}

impl Tasks {
    fn of(&self, number: usize) -> &Task {
        match number {
            0 => &self.one,
            1 => &self.two,
            _ => &self.three,
        }
    }

    fn of_mut(&mut self, number: usize) -> &mut Task {
        match number {
            0 => &mut self.one,
            1 => &mut self.two,
            _ => &mut self.three,
        }
    }

    fn calls(&self) -> [u64; 3] {
        [self.one.calls(), self.two.calls(), self.three.calls()]
    }
}

/// So many calls, and one more where this task left its waker last.
fn with_call(calls: u64, left: Option<usize>, number: usize) -> u64 {
    calls.saturating_add(u64::from(left == Some(number)))
}

impl Game {
    /// Nothing was done yet.
    pub fn new<R: AllocGlobal + Abort>(rt: &R, row: &Row) -> Self {
        let [first, second, third] = row.come;
        let [one, two, three] = row.tasks;
        let [closes_first, closes_second, closes_third] = row.closes;
        Game {
            lanes: Lanes {
                first: Lane::new(first, closes_first),
                second: Lane::new(second, closes_second),
                third: Lane::new(third, closes_third),
            },
            tasks: Tasks {
                one: Task::new(0, one, Bell::new(rt, false)),
                two: Task::new(1, two, Bell::new(rt, false)),
                three: Task::new(2, three, Bell::new(rt, false)),
            },
        }
    }

    /// Whether this party may take a step.
    pub fn may(&self, party: Party) -> bool {
        match party {
            Party::Task(number) => self.tasks.of(number).may(),
            Party::Comes(at) => self.lanes.of(at).to_come > 0,
            Party::Told(at) => self.lanes.of(at).is_news,
            Party::Closed(at) => self.lanes.of(at).to_close,
        }
    }

    /// It takes a step.
    pub fn step<R: Abort>(&mut self, rt: &R, party: Party, row: usize) {
        match party {
            Party::Task(number) => {
                let task = self.tasks.of_mut(number);
                let lane = self.lanes.of_mut(task.at());
                task.step(lane);
            }
            Party::Comes(at) => self.lanes.of_mut(at).come(),
            Party::Told(at) => self.tell(rt, at, false, row),
            Party::Closed(at) => self.tell(rt, at, true, row),
        }
    }

    /// An event or a close. It calls the task that left its waker last, once, and nobody else.
    fn tell<R: Abort>(&mut self, rt: &R, at: At, closes: bool, row: usize) {
        let [one, two, three] = self.tasks.calls();
        let left = self.lanes.of_mut(at).tell(closes);
        let want = [
            with_call(one, left, 0),
            with_call(two, left, 1),
            with_call(three, left, 2),
        ];
        same(rt, self.tasks.calls(), want, row);
        self.tasks.one.is_told(at);
        self.tasks.two.is_told(at);
        self.tasks.three.is_told(at);
    }

    /// A number of its own for each state.
    pub fn sum(&self) -> u64 {
        let lanes = [
            self.lanes.first.sum(),
            self.lanes.second.sum(),
            self.lanes.third.sum(),
        ];
        let tasks = [
            self.tasks.one.sum(),
            self.tasks.two.sum(),
            self.tasks.three.sum(),
        ];
        let mut sum = 0u64;
        for lane in lanes {
            sum = sum.wrapping_mul(1 << 11).wrapping_add(lane);
        }
        for task in tasks {
            sum = sum.wrapping_mul(1 << 5).wrapping_add(task);
        }
        sum
    }

    /// Nobody may take a step any more: nobody waits for what is there, and so many tasks at least have come to their end.
    pub fn is_played<R: Abort>(&self, rt: &R, over: u64, row: usize) {
        let mut ended = 0u64;
        for number in 0..3 {
            let task = self.tasks.of(number);
            let lane = self.lanes.of(task.at());
            holds(rt, !task.is_lost(lane), row);
            ended = ended.saturating_add(u64::from(task.is_over()));
        }
        holds(rt, ended >= over, row);
    }

    /// Ends it, wherever it stands.
    pub fn end(self) {
        let Game { mut lanes, tasks } = self;
        let Tasks { one, two, three } = tasks;
        let (first, second, third) = (one.at(), two.at(), three.at());
        one.end(lanes.of_mut(first));
        two.end(lanes.of_mut(second));
        three.end(lanes.of_mut(third));
    }
}
