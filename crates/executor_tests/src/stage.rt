//! An executor with what is noted of its futures, and calls on it whose answers are plain values, so that what calls these is
//! cheap to prove. No request for memory is refused here.

use crate::parts::{
    Bell, Gift, Job, Notes, TestExecutor, TestRealm, TestStatic, TestWaker, Work, drop_stored,
};
use async_executor::{ExStoredTask, Run, RunError, Tick};
use async_task::{Awaiter, Future, NoMemory, Poll, Returning, Runtime};
use std::alloc::Global;
use std::process::Abort;
use std::sync::Arc;
use std::sync::atomic::AtomicU64;
use std::sync::atomic::Ordering::SeqCst;

/// The name of the futures that runs wait for.
pub const OWN: u64 = u64::MAX;

/// How many turns a loop may take.
pub const MOST_TURNS: u64 = 10_000_000;

/// A future that a test spawns.
pub trait Planned<R: Runtime>: Future<TestWaker<R>, Output = Gift> + Drop {
    fn planned(job: Job<R>) -> Self;

    fn name(&self) -> u64;
}

impl<R: Runtime> Planned<R> for Job<R> {
    fn planned(job: Job<R>) -> Self {
        job
    }

    fn name(&self) -> u64 {
        self.name
    }
}

/// What a poll of a tick or run ends with.
#[derive(Clone, Copy, PartialEq)]
pub enum End {
    Pending,
    /// A tick polled a future.
    Ready,
    /// The run has its output, or was refused something, as the tick was.
    Over,
}

/// A tick or run.
#[derive(Drop)]
pub enum Seat<'a, F: Drop, R: Runtime> {
    Tick(Tick<'a, F, Gift, Bell, R>),
    Run(Run<'a, F, Gift, Bell, R, F>),
}

/// An executor of either kind.
#[derive(Drop)]
pub enum TestKind<F: Drop, R: Runtime> {
    Owned(TestExecutor<F, R>),
    Static(TestStatic<F, R>),
}

/// An executor with its notes.
#[derive(Drop)]
pub struct Stage<F: Drop, R: Runtime> {
    pub rt: R,
    pub alloc: Global,
    pub realm: &'static TestRealm<R>,
    pub notes: Arc<Notes, Global>,
    pub executor: TestKind<F, R>,
    /// How many futures were accepted, but for those of a spawn of many.
    accepted: AtomicU64,
}

impl<F: Planned<R>, R: Runtime + Abort> Stage<F, R> {
    /// An executor of so many places, one at least, static or not. As many futures are noted one by one, by their names from 0 on.
    pub fn new(
        rt: R,
        alloc: Global,
        realm: &'static TestRealm<R>,
        is_static: bool,
        limit: usize,
    ) -> Stage<F, R> {
        let executor = if is_static {
            let Ok(executor) = TestStatic::new(rt, alloc, realm, limit.max(1)) else {
                panic!(rt; "memory");
            };
            TestKind::Static(executor)
        } else {
            let Ok(executor) = TestExecutor::new(rt, alloc, realm, limit.max(1)) else {
                panic!(rt; "memory");
            };
            TestKind::Owned(executor)
        };
        Stage {
            rt,
            alloc,
            realm,
            notes: Notes::new(alloc, limit).expect(&rt, "memory"),
            executor,
            accepted: AtomicU64::new(0),
        }
    }

    /// Another of its realm, which isn't static.
    pub fn another(&self, limit: usize) -> Stage<F, R> {
        Stage::new(self.rt, self.alloc, self.realm, false, limit)
    }

    /// The executor, which isn't static.
    pub fn owned(&self) -> &TestExecutor<F, R> {
        match &self.executor {
            TestKind::Owned(executor) => executor,
            TestKind::Static(_) => panic!(self.rt; "a static executor"),
        }
    }

    /// Whether each future that was accepted is dropped. A static executor has no call for it, so that is counted, where all are
    /// noted one by one.
    pub fn is_empty(&self) -> bool {
        match &self.executor {
            TestKind::Owned(executor) => executor.is_empty(),
            TestKind::Static(_) => self.notes.dropped.load(SeqCst) == self.accepted.load(SeqCst),
        }
    }

    pub fn job(&self, name: u64, work: Work) -> F {
        F::planned(Job {
            rt: self.rt,
            realm: self.realm,
            name,
            work,
            notes: self.notes(),
        })
    }

    /// A future of this name that gives it.
    pub fn ready(&self, name: u64) -> F {
        self.job(name, Work::Yield(0, name))
    }

    fn notes(&self) -> Arc<Notes, Global> {
        Arc::try_clone(&self.notes).expect(&self.rt, "memory")
    }

    /// An outside waker.
    pub fn bell(&self) -> TestWaker<R> {
        Awaiter::Outside(Bell {
            notes: self.notes(),
        })
    }

    /// Spawns a future. Its handle is the answer, where it is accepted.
    pub fn spawn(&self, future: F) -> Option<Returning<ExStoredTask>> {
        let accepted = match &self.executor {
            TestKind::Owned(executor) => executor.spawn(future),
            TestKind::Static(executor) => executor.spawn(future),
        };
        match accepted {
            Ok(task) => {
                self.accepted.fetch_add(1, SeqCst);
                Some(Returning::new(task.store()))
            }
            Err(_) => None,
        }
    }

    /// Spawns a future and gives its handle up, and says whether it was accepted.
    pub fn spawn_detached(&self, future: F) -> bool {
        let accepted = match &self.executor {
            TestKind::Owned(executor) => executor.spawn(future),
            TestKind::Static(executor) => executor.spawn(future),
        };
        match accepted {
            Ok(task) => {
                self.accepted.fetch_add(1, SeqCst);
                task.detach();
                true
            }
            Err(_) => false,
        }
    }

    /// Spawns futures of these names that are ready, and gives their handles up.
    pub fn spawn_ready(&self, from: u64, end: u64) {
        for name in from..end {
            self.spawn_detached(self.ready(name));
        }
    }

    pub fn try_tick(&self) -> bool {
        match &self.executor {
            TestKind::Owned(executor) => executor.try_tick(),
            TestKind::Static(executor) => executor.try_tick(),
        }
    }

    /// Drops a handle, which cancels its task.
    pub fn drop_handle(&self, stored: Returning<ExStoredTask>) {
        drop_stored(self.rt, self.realm, stored);
    }

    /// A tick.
    pub fn tick(&self) -> Seat<'_, F, R> {
        match self.owned().tick() {
            Ok(tick) => Seat::Tick(tick),
            Err(_) => panic!(self.rt; "memory"),
        }
    }

    /// A run whose own future does this.
    pub fn run(&self, own: Work, seed: u64) -> Seat<'_, F, R> {
        self.run_of(self.job(OWN, own), seed)
    }

    /// A run of this future.
    pub fn run_of(&self, own: F, seed: u64) -> Seat<'_, F, R> {
        let made = match &self.executor {
            TestKind::Owned(executor) => executor.run_from(own, seed),
            TestKind::Static(executor) => executor.run_from(own, seed),
        };
        match made {
            Ok(run) => Seat::Run(run),
            Err(_) => panic!(self.rt; "memory"),
        }
    }

    /// Polls a tick or run by an outside waker.
    pub fn poll(&self, seat: &mut Seat<'_, F, R>) -> End {
        let waker = self.bell();
        match seat {
            Seat::Tick(tick) => end_of_tick(tick.poll(&waker)),
            Seat::Run(run) => end_of_run(run.poll(&waker)),
        }
    }

    /// Polls it so often.
    pub fn poll_often(&self, seat: &mut Seat<'_, F, R>, times: u64) {
        for _ in 0..times {
            self.poll(seat);
        }
    }

    /// Whether two runs wait whose walks begin as two seeds say, and the second still does once the first is gone.
    pub fn lets_two_runs_wait(&self) -> bool {
        let mut one = self.run(Work::Pend, 1);
        let mut two = self.run(Work::Pend, 2);
        let do_both = (self.poll(&mut one) == End::Pending) & (self.poll(&mut two) == End::Pending);
        drop(one);
        do_both & (self.poll(&mut two) == End::Pending)
    }

    /// Whether there is no memory for an executor with more places than memory can have.
    pub fn refuses_too_many_places(&self) -> bool {
        let made = TestExecutor::<F, R>::new(self.rt, self.alloc, self.realm, usize::MAX);
        matches!(made, Err(_))
    }

    /// How often outside wakers were called so far.
    pub fn rings(&self) -> u64 {
        self.notes.rings.load(SeqCst)
    }
}

fn end_of_tick(polled: Poll<Result<(), NoMemory>>) -> End {
    match polled {
        Poll::Pending => End::Pending,
        Poll::Ready(Ok(())) => End::Ready,
        Poll::Ready(Err(NoMemory)) => End::Over,
    }
}

fn end_of_run(polled: Poll<Result<Gift, RunError>>) -> End {
    match polled {
        Poll::Pending => End::Pending,
        Poll::Ready(_) => End::Over,
    }
}
