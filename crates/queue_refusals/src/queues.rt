//! Queues: shared ones and those of one owner.
use concurrent_queue::{ConcurrentQueue, Exclusive, ForcePushError, NoMemory, PushError};
use refusal_rows::{Call, Drops, Ended, Job, Look, Place, Report, Trial, try_each};
use std::alloc::Global;
use std::sync::Wait;
use std::sync::atomic::Ordering::SeqCst;

/// A call on a queue.
#[derive(Clone, Copy)]
enum QueueRow {
    /// A new shared queue of one place.
    Slot,
    /// A new shared queue of a few places.
    Ring,
    /// A new shared queue without a limit.
    Chain,
    /// The same of one owner.
    OwnRing,
    OwnChain,
    /// The next job goes in.
    Push,
    ForcePush,
    /// So many jobs go in that want no memory.
    Pushes(u64),
    /// So many jobs come out, in order, and then there is none.
    Pops(u64),
}

/// What is made of queues. A chain takes memory for each 31 items.
const QUEUE_ROWS: &[QueueRow] = &[
    QueueRow::Slot,
    QueueRow::Push,
    QueueRow::Pops(1),
    QueueRow::Ring,
    QueueRow::Push,
    QueueRow::ForcePush,
    QueueRow::Pops(2),
    QueueRow::Chain,
    QueueRow::Push,
    QueueRow::Pops(1),
    QueueRow::Chain,
    QueueRow::ForcePush,
    QueueRow::Push,
    QueueRow::Pushes(28),
    QueueRow::Push,
    QueueRow::ForcePush,
    QueueRow::Pops(32),
    QueueRow::OwnRing,
    QueueRow::Push,
    QueueRow::ForcePush,
    QueueRow::Pops(2),
    QueueRow::OwnChain,
    QueueRow::Push,
    QueueRow::Pops(1),
    QueueRow::OwnChain,
    QueueRow::ForcePush,
    QueueRow::Push,
    QueueRow::Pushes(28),
    QueueRow::Push,
    QueueRow::ForcePush,
    QueueRow::Pops(32),
];

/// Makes these calls.
pub fn try_queues<R: Wait + Copy + Drop>(
    rt: R,
    alloc: Global,
    drops: &'static Drops,
    report: &mut Report,
) {
    report.come_to(Place::Queue);
    try_each(&mut Queues::new(rt, alloc, drops), QUEUE_ROWS, report);
}

#[derive(Drop)]
enum Kept {
    Shared(ConcurrentQueue<Job>),
    Own(Exclusive<Job>),
}

/// A queue, and the names of those that went in and came out.
#[derive(Drop)]
struct Queues<R> {
    rt: R,
    alloc: Global,
    drops: &'static Drops,
    kept: Kept,
    pushed: u64,
    popped: u64,
    /// A job that a refused push handed back.
    back: Option<Job>,
}

impl<R: Wait + Copy + Drop> Queues<R> {
    fn new(rt: R, alloc: Global, drops: &'static Drops) -> Queues<R> {
        Queues {
            rt,
            alloc,
            drops,
            kept: Kept::Shared(ConcurrentQueue::unbounded(alloc)),
            pushed: 0,
            popped: 0,
            back: None,
        }
    }

    /// A job that goes in: the one that came back, or the next.
    fn job(&mut self) -> Job {
        match self.back.take() {
            Some(job) => job,
            None => Job {
                name: self.pushed,
                wakes: 0,
                drops: self.drops,
            },
        }
    }

    fn place(&mut self, made: Result<ConcurrentQueue<Job>, NoMemory>) -> Ended {
        match made {
            Ok(queue) => {
                self.kept = Kept::Shared(queue);
                Ended::Well
            }
            Err(NoMemory) => Ended::Refused,
        }
    }

    fn place_own(&mut self, made: Result<Exclusive<Job>, NoMemory>) -> Ended {
        match made {
            Ok(queue) => {
                self.kept = Kept::Own(queue);
                Ended::Well
            }
            Err(NoMemory) => Ended::Refused,
        }
    }

    fn push(&mut self) -> Ended {
        let job = self.job();
        let pushed = match &mut self.kept {
            Kept::Shared(queue) => queue.push(&self.rt, job),
            Kept::Own(queue) => queue.push(job),
        };
        match pushed {
            Ok(()) => self.went_in(),
            Err(PushError::NoMemory(job)) => self.came_back(job),
            Err(_) => Ended::Wrong,
        }
    }

    fn force_push(&mut self) -> Ended {
        let job = self.job();
        let pushed = match &mut self.kept {
            Kept::Shared(queue) => queue.force_push(&self.rt, job),
            Kept::Own(queue) => queue.force_push(job),
        };
        match pushed {
            Ok(None) => self.went_in(),
            Ok(Some(_)) => Ended::Wrong,
            Err(ForcePushError::NoMemory(job)) => self.came_back(job),
            Err(ForcePushError::Closed(_)) => Ended::Wrong,
        }
    }

    fn went_in(&mut self) -> Ended {
        self.pushed = self.pushed.saturating_add(1);
        Ended::Well
    }

    fn came_back(&mut self, job: Job) -> Ended {
        let is_same = job.name == self.pushed;
        self.back = Some(job);
        if is_same {
            Ended::Refused
        } else {
            Ended::Wrong
        }
    }

    /// Whether the next that comes out is the next that went in.
    fn pops_next(&mut self) -> bool {
        let popped = match &mut self.kept {
            Kept::Shared(queue) => queue.pop(&self.rt),
            Kept::Own(queue) => queue.pop(),
        };
        let name = self.popped;
        match popped {
            Ok(job) => {
                self.popped = name.saturating_add(1);
                job.name == name
            }
            Err(_) => false,
        }
    }

    fn len(&self) -> usize {
        match &self.kept {
            Kept::Shared(queue) => queue.len(&self.rt),
            Kept::Own(queue) => queue.len(),
        }
    }
}

impl<R: Wait + Copy + Drop> Trial for Queues<R> {
    type Row = QueueRow;

    fn name(&self, row: QueueRow) -> Call {
        match row {
            QueueRow::Slot => Call::Slot,
            QueueRow::Ring | QueueRow::OwnRing => Call::Ring,
            QueueRow::ForcePush => Call::ForcePush,
            _ => Call::Push,
        }
    }

    fn look(&self, row: QueueRow) -> Look {
        let _ = row;
        Look {
            shown: self.len() as u64,
            drops: self.drops.load(SeqCst),
        }
    }

    fn make(&mut self, row: QueueRow) -> Ended {
        match row {
            QueueRow::Slot => self.place(ConcurrentQueue::bounded(self.alloc, 1)),
            QueueRow::Ring => self.place(ConcurrentQueue::bounded(self.alloc, 5)),
            QueueRow::Chain => self.place(Ok(ConcurrentQueue::unbounded(self.alloc))),
            QueueRow::OwnRing => self.place_own(Exclusive::bounded(self.alloc, 5)),
            QueueRow::OwnChain => self.place_own(Ok(Exclusive::unbounded(self.alloc))),
            QueueRow::Push => self.push(),
            QueueRow::ForcePush => self.force_push(),
            QueueRow::Pushes(count) => {
                let mut went_in = true;
                for _ in 0..count {
                    went_in = went_in & matches!(self.push(), Ended::Well);
                }
                Ended::of(went_in)
            }
            QueueRow::Pops(count) => {
                let mut are_next = true;
                for _ in 0..count {
                    are_next = are_next & self.pops_next();
                }
                Ended::of(are_next & (self.len() == 0))
            }
        }
    }
}
