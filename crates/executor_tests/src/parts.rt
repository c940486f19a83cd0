//! What the tests' futures are, and what is noted of them.
use crate::locks::Asks;
use async_executor::{ExRealm, ExStoredTask, ExTask, ExWaker, Executor, StaticExecutor};
use async_task::{Future, Poll, Returning, Runtime, Wake};
use std::alloc::{AllocError, Global};
use std::mem;
use std::sync::Arc;
use std::sync::atomic::AtomicU64;
use std::sync::atomic::Ordering::SeqCst;

/// What has happened to one future, or to several.
#[derive(Default, Drop)]
pub struct Counts {
    pub polls: AtomicU64,
    pub drops: AtomicU64,
    /// The outputs that it gave.
    pub made: AtomicU64,
    /// The outputs of it that were dropped.
    pub lost: AtomicU64,
    /// How many polls of it are in progress.
    inside: AtomicU64,
    /// How often a poll of it began while another was in progress.
    pub overlaps: AtomicU64,
}

/// What has happened so far.
#[derive(Drop)]
pub struct Notes {
    /// Of each future by its name, where they are noted one by one.
    pub each: Vec<Counts>,
    /// Of all others.
    others: Counts,
    /// How many futures were dropped of those that are noted one by one, all together.
    pub dropped: AtomicU64,
    /// How many outputs were given to another future.
    pub given: AtomicU64,
    /// How often an outside waker was called.
    pub rings: AtomicU64,
    /// What is asked of another thread by each poll and drop of a future that isn't a run's, and by each call, copy and drop of an
    /// outside waker.
    pub asks: Asks,
}

impl Notes {
    /// Notes of so many futures one by one, and of the others together.
    pub fn new(alloc: Global, count: usize) -> Result<Arc<Notes, Global>, AllocError> {
        let mut each = Vec::with_capacity(alloc, count)?;
        for _ in 0..count {
            each.push(Counts::default())?;
        }
        let notes = Notes {
            each,
            others: Counts::default(),
            dropped: AtomicU64::new(0),
            given: AtomicU64::new(0),
            rings: AtomicU64::new(0),
            asks: Asks::default(),
        };
        Ok(Arc::new(alloc, notes)?)
    }

    /// Where it is noted what happens to the future of this name.
    pub fn of(&self, name: u64) -> &Counts {
        match self.each.get(name as usize) {
            Some(counts) => counts,
            None => &self.others,
        }
    }

    fn drop_comes(&self, name: u64) {
        self.asks.ask(name);
        self.of(name).drops.fetch_add(1, SeqCst);
        if (name as usize) < self.each.len() {
            self.dropped.fetch_add(1, SeqCst);
        }
    }

    fn poll_begins(&self, name: u64) {
        self.asks.ask(name);
        let counts = self.of(name);
        counts.polls.fetch_add(1, SeqCst);
        if counts.inside.fetch_add(1, SeqCst) != 0 {
            counts.overlaps.fetch_add(1, SeqCst);
        }
    }
}

/// What a future gives: a number. Its drop is noted.
pub struct Gift {
    number: u64,
    /// Where it is noted; none past 2^63 outputs.
    notes: Option<Arc<Notes, Global>>,
}

impl Gift {
    fn new(number: u64, notes: &Arc<Notes, Global>) -> Gift {
        notes.of(number).made.fetch_add(1, SeqCst);
        Gift {
            number,
            notes: Arc::try_clone(notes).ok(),
        }
    }

    pub fn number(&self) -> u64 {
        self.number
    }
}

impl Drop for Gift {
    fn drop(self) {
        let Gift { number, notes } = self;
        if let Some(notes) = notes {
            notes.of(number).lost.fetch_add(1, SeqCst);
        }
    }
}

/// A waker from outside, which counts its calls.
pub struct Bell {
    pub notes: Arc<Notes, Global>,
}

impl Drop for Bell {
    fn drop(self) {
        let Bell { notes } = self;
        notes.asks.ask(0);
    }
}

impl Wake for Bell {
    ghost is_same = { λ a b. Unit {0} };

    fn wake(self) {
        self.wake_by_ref();
    }

    fn wake_by_ref(&self) {
        self.notes.asks.ask(0);
        self.notes.rings.fetch_add(1, SeqCst);
    }

    fn clone(&self) -> Option<Self> {
        self.notes.asks.ask(0);
        match Arc::try_clone(&self.notes) {
            Ok(notes) => Some(Bell { notes }),
            Err(_) => None,
        }
    }

    // One that asks is copied again, so that the copy before is dropped.
    fn will_wake(&self, _other: &Self) -> bool {
        !self.notes.asks.are_on()
    }
}

/// The waker that the tests' futures are polled with.
pub type TestWaker<R> = ExWaker<Gift, Bell, R>;

pub type TestTask<R> = ExTask<Gift, Bell, R>;

pub type TestRealm<R> = ExRealm<Gift, Bell, R>;

pub type TestExecutor<F, R> = Executor<F, Gift, Bell, R>;

pub type TestStatic<F, R> = StaticExecutor<F, Gift, Bell, R>;

/// What a future does at each poll.
#[derive(Drop)]
pub enum Work {
    /// Waits, for ever.
    Pend,
    /// Wakes itself this often, and then gives the number.
    Yield(u64, u64),
    /// Gives way, then does something with the handle that it has, if any, and gives its own name. That says what it does: half of
    /// them await the other's output, or its end, one in four detaches it, and one in four cancels it.
    Meddle(Meddler),
}

/// Who does something with another's handle.
#[derive(Drop)]
pub struct Meddler {
    pub has_given_way: bool,
    pub other: Option<Returning<ExStoredTask>>,
}

/// A future of the tests. Its polls and its drop are noted.
pub struct Job<R: Runtime> {
    pub rt: R,
    pub realm: &'static TestRealm<R>,
    pub name: u64,
    pub work: Work,
    pub notes: Arc<Notes, Global>,
}

impl<R: Runtime> Drop for Job<R> {
    fn drop(self) {
        let Job {
            rt,
            realm,
            name,
            work,
            notes,
        } = self;
        if let Work::Meddle(meddler) = work {
            let Meddler { other, .. } = meddler;
            if let Some(other) = other {
                drop_stored(rt, realm, other);
            }
        }
        notes.drop_comes(name);
    }
}

impl<R: Runtime> Future<TestWaker<R>> for Job<R> {
    type Output = Gift;

    fn poll(&mut self, waker: &TestWaker<R>) -> Poll<Gift> {
        self.notes.poll_begins(self.name);
        let output = self.output(waker);
        self.notes.of(self.name).inside.fetch_sub(1, SeqCst);
        match output {
            Some(number) => Poll::Ready(Gift::new(number, &self.notes)),
            None => Poll::Pending,
        }
    }
}

impl<R: Runtime> Job<R> {
    /// The output, where it is ready.
    fn output(&mut self, waker: &TestWaker<R>) -> Option<u64> {
        match &mut self.work {
            Work::Pend => None,
            Work::Yield(0, number) => Some(*number),
            Work::Yield(times, _) => {
                *times = times.saturating_sub(1);
                waker.wake_by_ref();
                None
            }
            Work::Meddle(meddler) => {
                if !meddler.has_given_way {
                    meddler.has_given_way = true;
                    waker.wake_by_ref();
                    return None;
                }
                let Some(stored) = mem::replace(&mut meddler.other, None) else {
                    return Some(self.name);
                };
                let Some(task) = stored.redeem(self.rt, self.realm) else {
                    return Some(self.name);
                };
                if self.name % 4 < 2 {
                    return meddler
                        .awaits(task, &self.notes, waker)
                        .then_some(self.name);
                }
                give_up(self.name, task, waker);
                Some(self.name)
            }
        }
    }
}

impl Meddler {
    /// Polls the other's handle, and says whether its task has ended. The handle stays.
    fn awaits<R: Runtime>(
        &mut self,
        task: TestTask<R>,
        notes: &Notes,
        waker: &TestWaker<R>,
    ) -> bool {
        let mut task = task;
        let polled = task.poll(waker);
        self.other = Some(Returning::new(task.store()));
        match polled {
            Poll::Ready(Ok(_)) => {
                notes.given.fetch_add(1, SeqCst);
                true
            }
            Poll::Ready(Err(_)) => true,
            Poll::Pending => false,
        }
    }
}

/// Detaches the task of half of the names, and cancels the others': by a poll, whose output may come, or by the handle's drop.
fn give_up<R: Runtime>(name: u64, task: TestTask<R>, waker: &TestWaker<R>) {
    match name % 8 {
        2 | 6 => drop(task.detach()),
        3 => drop(task.cancel().poll(waker)),
        _ => drop(task),
    }
}

/// Drops a handle that was stored, which cancels its task.
pub fn drop_stored<R: Runtime>(
    rt: R,
    realm: &'static TestRealm<R>,
    stored: Returning<ExStoredTask>,
) {
    if let Some(task) = stored.redeem(rt, realm) {
        drop(task);
    }
}
