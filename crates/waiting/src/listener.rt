ghost use Rattle.async_task.specs.declared.poll.Poll.TheVariants as poll;
ghost use Rattle.std.specs.Prelude.{◌≡◌, None, Some, IsSome};

use crate::event::Event;
use crate::waiters::{Left, Listening, Looked, WasTold};
use async_task::{Future, Poll, Wake};
use std::mem;
use std::sync::Wait;

/// One who waits for an event: a future that is ready once it was notified, and from then on. Each poll leaves its waker in the
/// place of the one before. Where no copy of the waker can be had it calls the waker, so that it is polled again.
///
/// Dropped before it was notified, it leaves the list. Dropped after it was notified, and before a poll has answered so, it
/// notifies the next listener.
pub struct Listener<K: Wake + Drop, R: Wait + Copy + Drop> {
    event: Event<K, R>,
    rt: R,
    listening: Option<Listening>,
    // Set from its first ready answer on.
    told: Option<WasTold>,
}

impl<K: Wake + Drop, R: Wait + Copy + Drop> Listener<K, R> {
    pub(crate) fn new(rt: R, event: Event<K, R>, listening: Listening) -> Self
        ensures event { result.event ≡ event }
        ensures listens { result.listening ≡ Some listening }
    {
        Listener {
            event,
            rt,
            listening: Some(listening),
            told: None,
        }
    }
}

/// Leaves the list, and notifies the next listener where it was notified.
fn leave<K: Wake + Drop, R: Wait + Copy + Drop>(rt: &R, event: &Event<K, R>, listening: Listening) {
    match event.waiters().leave(rt, listening) {
        Left::Told(call) => event.pass_on(call),
        Left::Untold(_waker) => {}
    }
}

impl<K: Wake + Drop, R: Wait + Copy + Drop> Future<K> for Listener<K, R> {
    type Output = ();

    /// 1. Takes a copy of the waker.
    /// 2. Looks whether it was notified, and else leaves the copy, under the lock.
    /// 3. Drops the waker that it had left before, with no lock held.
    fn poll(&mut self, waker: &K) -> Poll<()>
        ensures event { self.new.event ≡ self.old.event }
        ensures again { self.old.listening ≡ None → result ≡ poll.Ready tt }
        ensures over { result ≡ poll.Ready tt → self.new.listening ≡ None }
        ensures told { IsSome self.old.listening → result ≡ poll.Ready tt → IsSome self.new.told }
        ensures waits { result ≡ poll.Pending → IsSome self.new.listening }
    {
        let Some(listening) = self.listening.take() else {
            return Poll::Ready(());
        };
        let copy = waker.clone();
        let is_left = copy.is_some();
        match self.event.waiters().look(&self.rt, listening, copy) {
            Looked::Told(call, _waker) => {
                self.told = Some(call.take());
                Poll::Ready(())
            }
            Looked::Waits(listening, _before) => {
                if let Some(other) = mem::replace(&mut self.listening, Some(listening)) {
                    leave(&self.rt, &self.event, other);
                }
                if !is_left {
                    waker.wake_by_ref();
                }
                Poll::Pending
            }
        }
    }
}

impl<K: Wake + Drop, R: Wait + Copy + Drop> Drop for Listener<K, R> {
    fn drop(self) {
        let Listener {
            event,
            rt,
            listening,
            told: _told,
        } = self;
        if let Some(listening) = listening {
            leave(&rt, &event, listening);
        }
    }
}
