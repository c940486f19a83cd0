//! Ticks at equal distances.
ghost use Rattle.async_task.specs.declared.poll.Poll.TheVariants as poll;
ghost use Rattle.std.specs.Duration.{as_nanos, max_nanos};
ghost use Rattle.std.specs.Prelude.{◌≡◌, ◌+◌, Err, IfSome, IsSome, None, Ok, Some, min};
ghost use Rattle.timer.specs.declared.errors.Stopped.{Stopped};

use crate::deadlines::{Entry, Looked};
use crate::errors::Stopped;
use crate::shared::Shared;
use async_task::{Future, Poll, Wake};
use std::mem;
use std::sync::{Arc, Wait};
use std::time::{Clock, Duration};

/// Ticks once each period: a future that is ready once the next tick has come, and is then polled again for the tick after it. The
/// first is due at once.
///
/// **A tick that was missed comes late, and the ticks after it at once, until it has caught up.** Each is due one period after the
/// one before was due, whenever that was taken. That is `MissedTickBehavior::Burst` of `tokio`. With a period of no time each poll
/// is a tick.
///
/// It has one place of its timer as long as it ticks. A closed timer gives the tick that was awaited, in its time, and then
/// `Stopped`; a stopped timer gives `Stopped`. Dropped, it gives its place back.
pub struct Interval<K: Wake + Drop, R: Wait + Clock + Copy + Drop> {
    shared: Arc<Shared<K>>,
    rt: R,
    period: Duration,
    /// When the awaited tick is due, as time from the timer's start.
    due: Duration,
    entry: Option<Entry>,
}

impl<K: Wake + Drop, R: Wait + Clock + Copy + Drop> Interval<K, R> {
    pub(crate) fn new(
        rt: R,
        shared: Arc<Shared<K>>,
        period: Duration,
        due: Duration,
        entry: Entry,
    ) -> Self
        ensures timer { result.shared ≡ shared }
        ensures terms { (result.period ≡ period) × (result.due ≡ due) }
        ensures entry { result.entry ≡ Some entry }
    {
        Interval {
            shared,
            rt,
            period,
            due,
            entry: Some(entry),
        }
    }

    /// Makes an interval with this period.
    pub fn period(&self) -> Duration
        ensures { result ≡ self.now.period }
    {
        self.period
    }

    /// Sets its place.
    fn hold(&mut self, entry: Option<Entry>)
        ensures { self.new ≡ record self.old { entry = entry } }
    {
        if let Some(other) = mem::replace(&mut self.entry, entry) {
            self.shared.leave(&self.rt, other);
        }
    }

    /// Moves on by one tick: the next is awaited, where the timer isn't closed.
    fn tick(&mut self, entry: Entry)
        ensures next { as_nanos self.new.due ≡ min (as_nanos self.old.due + as_nanos self.old.period) max_nanos }
        ensures period { self.new.period ≡ self.old.period }
        ensures awaits { IfSome self.new.entry (λ entry. entry.due ≡ as_nanos self.new.due) }
    {
        self.due = self.due.saturating_add(self.period);
        let entry = self.shared.again(&self.rt, entry, self.due);
        self.hold(entry);
    }
}

impl<K: Wake + Drop, R: Wait + Clock + Copy + Drop> Future<K> for Interval<K, R> {
    type Output = Result<(), Stopped>;

    fn poll(&mut self, waker: &K) -> Poll<Result<(), Stopped>>
        ensures next { result ≡ poll.Ready (Ok tt)
            → as_nanos self.new.due ≡ min (as_nanos self.old.due + as_nanos self.old.period) max_nanos }
        ensures waits { result ≡ poll.Pending → (self.new.due ≡ self.old.due) × IsSome self.new.entry }
        ensures over { self.old.entry ≡ None → result ≡ poll.Ready (Err (record {})) }
        ensures ends { (why : Stopped) → result ≡ poll.Ready (Err why) → self.new.entry ≡ None }
        ensures period { self.new.period ≡ self.old.period }
    {
        let Some(entry) = self.entry.take() else {
            return Poll::Ready(Err(Stopped));
        };
        if self.due <= self.shared.passed(&self.rt) {
            self.tick(entry);
            return Poll::Ready(Ok(()));
        }
        let copy = waker.clone();
        let is_left = copy.is_some();
        match self.shared.look(&self.rt, entry, copy) {
            Looked::Sleeps(entry, _before) => {
                self.hold(Some(entry));
                if !is_left {
                    waker.wake_by_ref();
                }
                Poll::Pending
            }
            Looked::Stopped(_waker) => Poll::Ready(Err(Stopped)),
            Looked::Due(_waker) => {
                self.due = self.due.saturating_add(self.period);
                let entry = self.shared.enter(&self.rt, self.due).ok();
                self.hold(entry);
                Poll::Ready(Ok(()))
            }
        }
    }
}

impl<K: Wake + Drop, R: Wait + Clock + Copy + Drop> Drop for Interval<K, R> {
    fn drop(self) {
        let Interval {
            shared,
            rt,
            period: _,
            due: _,
            entry,
        } = self;
        if let Some(entry) = entry {
            shared.leave(&rt, entry);
        }
    }
}
