//! What the tests' tasks are made of.
use async_task::{
    Awaiter, Cancel, Due, Future, Poll, Realm, Returning, Runnable, Runtime, Schedule,
    ScheduleInfo, Scheduled, StoredRunnable, StoredWaker, Task, TaskWaker, Wake,
};
use std::alloc::{AllocError, Global};
use std::sync::atomic::AtomicU64;
use std::sync::atomic::Ordering::SeqCst;
use std::sync::{Arc, Mutex, Wait};

/// What has happened to a task so far.
#[derive(Drop)]
pub struct Counts {
    pub polls: AtomicU64,
    /// Polls that go on at the moment.
    pub inside: AtomicU64,
    /// Polls that began while another one went on.
    pub overlaps: AtomicU64,
    /// Wakes that threads have begun.
    pub wakes: AtomicU64,
    /// Those of them that had begun before the last poll did.
    pub noticed: AtomicU64,
    pub schedules: AtomicU64,
    pub future_drops: AtomicU64,
    pub schedule_drops: AtomicU64,
    /// Wakes of wakers from outside.
    pub rings: AtomicU64,
    /// The most Runnables that were in the queue at a time.
    pub longest: AtomicU64,
    /// The Runnables that were scheduled and not taken yet.
    pub queue: Mutex<Vec<Returning<StoredRunnable<u64>>>>,
    /// Wakers of tasks of the same queue: the next that is scheduled wakes the last of them.
    pub sleepers: Mutex<Vec<Returning<StoredWaker>>>,
}

impl Counts {
    pub fn new(alloc: Global) -> Result<Arc<Counts, Global>, AllocError> {
        Ok(Arc::new(
            alloc,
            Counts {
                polls: AtomicU64::new(0),
                inside: AtomicU64::new(0),
                overlaps: AtomicU64::new(0),
                wakes: AtomicU64::new(0),
                noticed: AtomicU64::new(0),
                schedules: AtomicU64::new(0),
                future_drops: AtomicU64::new(0),
                schedule_drops: AtomicU64::new(0),
                rings: AtomicU64::new(0),
                longest: AtomicU64::new(0),
                queue: Mutex::new(Vec::with_capacity(alloc, 8)?),
                sleepers: Mutex::new(Vec::new(alloc)),
            },
        )?)
    }
}

/// A future that is Pending so many times, wakes itself then where it shall, and gives 3 in the end.
pub struct Countdown {
    pub left: u64,
    pub wakes_itself: bool,
    pub counts: Arc<Counts, Global>,
}

impl<K: Wake> Future<K> for Countdown {
    type Output = u64;

    fn poll(&mut self, waker: &K) -> Poll<u64> {
        let counts = &self.counts;
        let others = counts.inside.fetch_add(1, SeqCst);
        counts.overlaps.fetch_add(others, SeqCst);
        counts.polls.fetch_add(1, SeqCst);
        counts.noticed.store(counts.wakes.load(SeqCst), SeqCst);
        let is_ready = self.left == 0;
        if !is_ready & self.wakes_itself {
            waker.wake_by_ref();
        }
        counts.inside.fetch_sub(1, SeqCst);
        self.left = self.left.saturating_sub(1);
        if is_ready {
            Poll::Ready(3)
        } else {
            Poll::Pending
        }
    }
}

impl Drop for Countdown {
    fn drop(self) {
        let Self {
            left: _,
            wakes_itself: _,
            counts,
        } = self;
        counts.future_drops.fetch_add(1, SeqCst);
    }
}

/// A future that adds the numbers from `left` down to 1, one a poll.
#[derive(Drop)]
pub struct Sum {
    pub left: u64,
    pub sum: u64,
}

impl<K: Wake> Future<K> for Sum {
    type Output = u64;

    fn poll(&mut self, waker: &K) -> Poll<u64> {
        if self.left == 0 {
            return Poll::Ready(self.sum);
        }
        self.sum = self.sum.saturating_add(self.left);
        self.left -= 1;
        waker.wake_by_ref();
        Poll::Pending
    }
}

/// A queue, which its tasks' schedule values are ways to.
pub struct Line<R: Wait + Copy + Drop> {
    pub rt: R,
    pub counts: Arc<Counts, Global>,
}

type Queued<R> = Scheduled<Countdown, u64, Line<R>, u64, Bell, R>;

impl<R: Wait + Copy + Drop> Line<R> {
    /// Queues a task, and wakes a sleeper, which then has to be scheduled.
    fn push(&self, runnable: Queued<R>) -> Option<Queued<R>> {
        let (realm, counts) = (runnable.realm(), &self.counts);
        counts.schedules.fetch_add(1, SeqCst);
        let mut queue = counts.queue.lock(&self.rt);
        let _ = queue.push(Returning::new(runnable.store()));
        counts.longest.fetch_max(queue.len() as u64, SeqCst);
        drop(queue);
        let sleeper = counts.sleepers.lock(&self.rt).pop();
        match sleeper {
            Some(sleeper) => match sleeper.wake(self.rt, realm) {
                Some(Due { runnable, info: _ }) => Some(runnable),
                None => None,
            },
            None => None,
        }
    }
}

impl<R: Wait + Copy + Drop> Schedule<Queued<R>> for Line<R> {
    fn schedule(&self, runnable: Queued<R>, _info: ScheduleInfo) {
        let mut next = Some(runnable);
        for _ in self.rt.forever() {
            next = match next {
                Some(runnable) => self.push(runnable),
                None => return,
            };
        }
        unreachable!()
    }
}

impl<R: Wait + Copy + Drop> Drop for Line<R> {
    fn drop(self) {
        let Self { rt: _, counts } = self;
        counts.schedule_drops.fetch_add(1, SeqCst);
    }
}

/// A waker from outside, of which no copy can be had where it is short.
#[derive(Drop)]
pub struct Bell {
    pub counts: Arc<Counts, Global>,
    pub is_short: bool,
}

impl Wake for Bell {
    ghost is_same = { λ a b. Unit {0} };

    fn wake(self) {
        self.wake_by_ref();
    }

    fn wake_by_ref(&self) {
        self.counts.rings.fetch_add(1, SeqCst);
    }

    fn clone(&self) -> Option<Self> {
        let is_short = self.is_short;
        match Arc::try_clone(&self.counts) {
            Ok(counts) if !is_short => Some(Bell { counts, is_short }),
            _ => None,
        }
    }

    fn will_wake(&self, other: &Self) -> bool {
        let _ = other;
        true
    }
}

pub type Tasks<R> = Realm<Countdown, u64, Line<R>, u64, Bell>;

pub type TestRunnable<R> = Runnable<Countdown, u64, Line<R>, u64, Bell, R>;

pub type TestTask<R> = Task<Countdown, u64, Line<R>, u64, Bell, R>;

pub type TestCancel<R> = Cancel<Countdown, u64, Line<R>, u64, Bell, R>;

pub type TestWaker<R> = TaskWaker<Countdown, u64, Line<R>, u64, Bell, R>;

pub type TestAwaiter<R> = Awaiter<Countdown, u64, Line<R>, u64, Bell, R>;

/// The Runnable that was scheduled last.
pub fn next<R: Runtime>(
    rt: R,
    realm: &'static Tasks<R>,
    counts: &Counts,
) -> Option<TestRunnable<R>> {
    let stored = counts.queue.lock(&rt).pop();
    match stored {
        Some(stored) => match stored.redeem(rt, realm) {
            Some(scheduled) => Some(scheduled.into_runnable()),
            None => None,
        },
        None => None,
    }
}

/// What a run answers.
pub fn ran<R: Runtime>(runnable: TestRunnable<R>) -> bool {
    runnable.run()
}

/// The drop of a handle. A call of `drop` states at each place all that a handle's parts drop: this and the next state it
/// once.
pub fn drop_task<R: Runtime>(_task: TestTask<R>) {}

/// The drop of a handle that cancels.
pub fn drop_cancel<R: Runtime>(_cancel: TestCancel<R>) {}

/// The drop of a task's waker.
pub fn drop_waker<R: Runtime>(_waker: TestWaker<R>) {}
