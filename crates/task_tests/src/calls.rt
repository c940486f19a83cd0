//! What most tests begin with, and the calls that they make, each compared with its answer in one place, so that a call is
//! cheap to prove.
use crate::parts::{
    Bell, Countdown, Counts, Line, Tasks, TestAwaiter, TestCancel, TestRunnable, TestTask,
    TestWaker, next, ran,
};
use async_task::{Awaiter, Builder, Future, NoMemory, Poll, RealmError, Runtime, TaskError};
use std::alloc::{AllocGlobal, Global};
use std::fmt::Debug;
use std::process::Abort;
use std::sync::Arc;
use std::sync::atomic::Ordering::SeqCst;

/// The value is the one that is wanted.
pub fn same<R: Abort, T: PartialEq + Debug + Drop>(rt: &R, value: T, want: T) {
    assert_eq!(rt; value, want);
}

/// Its text of Debug, of a run in which no memory is refused.
pub fn text_of<R: Abort + AllocGlobal, T: Debug>(rt: &R, value: &T) -> String<Global> {
    format!(in rt.alloc(); "{value:?}").expect(rt, "memory")
}

/// Its text of Debug is the one that is wanted.
pub fn shown<R: Abort + AllocGlobal, T: Debug>(rt: &R, value: &T, want: &str) {
    assert_eq!(rt; text_of(rt, value).as_str(), want);
}

pub fn holds<R: Abort>(rt: &R, is_so: bool) {
    assert!(rt; is_so);
}

/// Where a test's tasks lie, and what has happened to them. Of a run in which no memory is refused.
#[derive(Drop)]
pub struct Stage<R: Runtime> {
    pub rt: R,
    pub alloc: Global,
    pub realm: &'static Tasks<R>,
    pub counts: Arc<Counts, Global>,
}

impl<R: Runtime + Abort> Stage<R> {
    /// New tasks in this realm.
    pub fn new(rt: R, alloc: Global, realm: Result<&'static Tasks<R>, RealmError>) -> Stage<R> {
        match realm {
            Ok(realm) => Stage {
                rt,
                alloc,
                realm,
                counts: Counts::new(alloc).expect(&rt, "memory"),
            },
            Err(error) => panic!(rt; "{error}"),
        }
    }

    /// The same realm, whose next tasks are counted apart.
    pub fn counted_apart(&self) -> Stage<R> {
        Stage::new(self.rt, self.alloc, Ok(self.realm))
    }

    /// What has happened to the tasks here, for another thread.
    pub fn counts_too(&self) -> Arc<Counts, Global> {
        Arc::try_clone(&self.counts).expect(&self.rt, "memory")
    }

    /// A task whose future is Pending so many times, with metadata 7.
    pub fn task(&self, left: u64, wakes_itself: bool) -> (TestRunnable<R>, TestTask<R>) {
        let (rt, counts) = (self.rt, self.counts_too());
        let future = Countdown {
            left,
            wakes_itself,
            counts,
        };
        let counts = self.counts_too();
        let line = Line { rt, counts };
        match Builder::new()
            .metadata(7)
            .spawn(self.rt, self.realm, future, line)
        {
            Ok(both) => both,
            Err(_) => panic!(self.rt; "memory"),
        }
    }

    /// A waker of this task.
    pub fn waker(&self, runnable: &TestRunnable<R>) -> TestWaker<R> {
        match runnable.waker() {
            Ok(waker) => waker,
            Err(_) => panic!(self.rt; "no waker"),
        }
    }

    /// A waker from outside that counts its rings here, of which no copy can be had where it is short.
    pub fn bell(&self, is_short: bool) -> TestAwaiter<R> {
        let counts = self.counts_too();
        Awaiter::Outside(Bell { counts, is_short })
    }

    /// Polls, schedule calls, drops of the future, drops of the schedule value.
    pub fn seen(&self, want: (u64, u64, u64, u64)) {
        let so_far = (
            self.counts.polls.load(SeqCst),
            self.counts.schedules.load(SeqCst),
            self.counts.future_drops.load(SeqCst),
            self.counts.schedule_drops.load(SeqCst),
        );
        assert_eq!(self.rt; so_far, want);
    }

    pub fn rings(&self, want: u64) {
        assert_eq!(self.rt; self.counts.rings.load(SeqCst), want);
    }

    /// The run of a Runnable, whose task isn't woken in it.
    pub fn run(&self, runnable: TestRunnable<R>) {
        assert_eq!(self.rt; ran(runnable), false);
    }

    /// The run of the Runnable that was scheduled last, whose task isn't woken in it.
    pub fn run_next(&self) {
        match next(self.rt, self.realm, &self.counts) {
            Some(runnable) => self.run(runnable),
            None => panic!(self.rt; "nothing was scheduled"),
        }
    }

    /// Looks so often for a Runnable that was scheduled, and runs it.
    pub fn run_what_is_there(&self, rounds: u64) {
        for _ in 0..rounds {
            if let Some(runnable) = next(self.rt, self.realm, &self.counts) {
                ran(runnable);
            }
        }
    }

    /// A poll of a handle by this waker.
    pub fn poll(
        &self,
        task: &mut TestTask<R>,
        waker: &TestAwaiter<R>,
        want: Poll<Result<u64, TaskError>>,
    ) {
        same(&self.rt, task.poll(waker), want);
    }

    /// The same of a handle that cancels, by a waker of which no copy can be had.
    pub fn poll_cancel(
        &self,
        cancel: &mut TestCancel<R>,
        want: Poll<Result<Option<u64>, NoMemory>>,
    ) {
        same(&self.rt, cancel.poll(&self.bell(true)), want);
    }
}
