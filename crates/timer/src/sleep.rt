ghost use Rattle.async_task.specs.declared.poll.Poll.TheVariants as poll;
ghost use Rattle.std.specs.Prelude.{◌≡◌, None, Some, IsSome, Result, false};
ghost use Rattle.timer.specs.Errors.{woken};
ghost use Rattle.timer.specs.declared.errors.Stopped.{Stopped};

use crate::deadlines::{Entry, Looked};
use crate::errors::Stopped;
use crate::shared::Shared;
use async_task::{Future, Poll, Wake};
use std::mem;
use std::sync::{Arc, Wait};

/// A sleep: a future that is ready once its time has come, and from then on. It is ready with an error where the timer was stopped
/// before that. Each poll leaves its waker in the place of the one before. Where no copy of the waker can be had it calls the
/// waker, so that it is polled again. Dropped, it gives its place back, in a time that grows with the logarithm of how many may
/// sleep.
pub struct Sleep<K: Wake + Drop, R: Wait + Copy + Drop> {
    shared: Arc<Shared<K>>,
    rt: R,
    entry: Option<Entry>,
    is_stopped: bool,
}

impl<K: Wake + Drop, R: Wait + Copy + Drop> Sleep<K, R> {
    pub(crate) fn new(rt: R, shared: Arc<Shared<K>>, entry: Entry) -> Self
        ensures timer { result.shared ≡ shared }
        ensures entry { result.entry ≡ Some entry }
        ensures runs { result.is_stopped ≡ false }
    {
        Sleep {
            shared,
            rt,
            entry: Some(entry),
            is_stopped: false,
        }
    }

    /// What it is ready with, once it has given up its place.
    fn ended(&self) -> Result<(), Stopped>
        ensures { result ≡ woken self.now.is_stopped }
    {
        if self.is_stopped {
            Err(Stopped)
        } else {
            Ok(())
        }
    }
}

impl<K: Wake + Drop, R: Wait + Copy + Drop> Future<K> for Sleep<K, R> {
    type Output = Result<(), Stopped>;

    fn poll(&mut self, waker: &K) -> Poll<Result<(), Stopped>>
        ensures again { self.old.entry ≡ None → result ≡ poll.Ready (woken self.old.is_stopped) }
        ensures up { (answer : Result Unit Stopped) → result ≡ poll.Ready answer → self.new.entry ≡ None }
        ensures as_before { (answer : Result Unit Stopped) → result ≡ poll.Ready answer → answer ≡ woken self.new.is_stopped }
        ensures sleeps { result ≡ poll.Pending → IsSome self.new.entry }
    {
        let Some(entry) = self.entry.take() else {
            return Poll::Ready(self.ended());
        };
        let copy = waker.clone();
        let is_left = copy.is_some();
        match self.shared.look(&self.rt, entry, copy) {
            Looked::Due(_waker) => {
                self.is_stopped = false;
                Poll::Ready(Ok(()))
            }
            Looked::Stopped(_waker) => {
                self.is_stopped = true;
                Poll::Ready(Err(Stopped))
            }
            Looked::Sleeps(entry, _before) => {
                if let Some(other) = mem::replace(&mut self.entry, Some(entry)) {
                    self.shared.leave(&self.rt, other);
                }
                if !is_left {
                    waker.wake_by_ref();
                }
                Poll::Pending
            }
        }
    }
}

impl<K: Wake + Drop, R: Wait + Copy + Drop> Drop for Sleep<K, R> {
    fn drop(self) {
        let Sleep {
            shared,
            rt,
            entry,
            is_stopped: _,
        } = self;
        if let Some(entry) = entry {
            shared.leave(&rt, entry);
        }
    }
}
