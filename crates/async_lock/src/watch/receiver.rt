ghost use Rattle.async_task.specs.declared.poll.Poll.TheVariants as poll;
ghost use Rattle.std.specs.Arc.{arc_value};
ghost use Rattle.std.specs.Prelude.{◌≡◌, ◌<◌, ◌≤◌, Err, IfOk, IsSome, None, Ok, OnErr};

use crate::round::Seat;
use crate::watch::changed::Changed;
use crate::watch::latest::Noticed;
use crate::watch::shared::Shared;
use async_task::{NoMemory, Poll, Wake};
use std::mem;
use std::sync::{Arc, Wait};
use waiting::channel::RecvError;

/// Follows the newest of values: it is woken at a change, and sees only the newest. `changed` answers at most once to each
/// version.
pub struct Receiver<T: Drop, K: Wake + Drop, R: Wait + Copy + Drop> {
    shared: Arc<Shared<T, K>>,
    rt: R,
    // The version that it has seen.
    seen: u64,
    // Set from a `poll_changed` that was pending until one that isn't.
    seat: Option<Seat>,
}

impl<T: Drop, K: Wake + Drop, R: Wait + Copy + Drop> Receiver<T, K, R> {
    pub(crate) fn new(rt: R, shared: Arc<Shared<T, K>>, seen: u64) -> Self
        ensures shared { result.shared ≡ shared }
        ensures seen { result.seen ≡ seen }
        ensures waits_not { result.seat ≡ None }
    {
        Receiver {
            shared,
            rt,
            seen,
            seat: None,
        }
    }

    /// Makes one more receiver, which has seen as much; refused where there are 2^63 handles. It takes no memory.
    pub fn clone(&self) -> Result<Self, NoMemory>
        ensures same { IfOk result (λ receiver. arc_value receiver.shared ≡ arc_value self.now.shared) }
        ensures seen { IfOk result (λ receiver. receiver.seen ≡ self.now.seen) }
        ensures waits_not { IfOk result (λ receiver. receiver.seat ≡ None) }
    {
        match Arc::try_clone(&self.shared) {
            Ok(shared) => Ok(Receiver::new(self.rt, shared, self.seen)),
            Err(_) => Err(NoMemory),
        }
    }

    /// Borrows the newest value, for as long as the caller likes: no lock is held meanwhile, and a newer one may come. The value
    /// doesn't count as seen by this. Refused where it has 2^63 handles; it takes no memory.
    pub fn borrow(&self) -> Result<Arc<T>, NoMemory> {
        match self.shared.newest(&self.rt) {
            Some((newest, _version)) => Ok(newest),
            None => Err(NoMemory),
        }
    }

    /// As `borrow`, and the value counts as seen: a later `changed` waits for a newer one.
    pub fn borrow_and_update(&mut self) -> Result<Arc<T>, NoMemory>
        ensures seen { self.old.seen ≤ self.new.seen }
        ensures refused { OnErr result (self.new.seen ≡ self.old.seen) }
        ensures same { (self.new.shared ≡ self.old.shared) × (self.new.seat ≡ self.old.seat) }
    {
        match self.shared.newest(&self.rt) {
            Some((newest, version)) => {
                self.seen = self.seen.max(version);
                Ok(newest)
            }
            None => Err(NoMemory),
        }
    }

    /// Whether a newer value came than it has seen. Others may change that at once. It takes no memory.
    pub fn has_changed(&self) -> bool {
        self.shared.version(&self.rt) > self.seen
    }

    /// Makes a future that is ready once a newer value came than it has seen: that counts as seen then. It takes no memory by
    /// itself.
    pub fn changed(&mut self) -> Changed<'_, T, K, R> {
        Changed::new(self)
    }

    /// Polls as the future of `changed` does, for a future that has the receiver in a field. It takes memory for a place among the
    /// waiters, where others wait already. `Closed` says that it has seen the newest value, and none comes any more. After a
    /// pending poll, a caller that won't poll again may call `give_up`, or drop the receiver: nobody waits for that.
    pub fn poll_changed(&mut self, waker: &K) -> Poll<Result<(), RecvError>>
        ensures once { result ≡ poll.Ready (Ok tt) → self.old.seen < self.new.seen }
        ensures seen { ¬ (result ≡ poll.Ready (Ok tt)) → self.new.seen ≡ self.old.seen }
        ensures waits { result ≡ poll.Pending → IsSome self.new.seat }
        ensures ended { (answer : _) → result ≡ poll.Ready answer → self.new.seat ≡ None }
        ensures same { self.new.shared ≡ self.old.shared }
    {
        let copy = waker.clone();
        let is_left = copy.is_some();
        let seat = self.seat.take();
        match self.shared.look(&self.rt, self.seen, seat, copy) {
            Noticed::Changed(version, _before, _copy) => {
                self.seen = version;
                Poll::Ready(Ok(()))
            }
            Noticed::Closed(_before, _copy) => Poll::Ready(Err(RecvError::Closed)),
            Noticed::NoMemory(_copy) => Poll::Ready(Err(RecvError::NoMemory)),
            Noticed::Waits(seat, _before) => {
                self.sits(Some(seat));
                if !is_left {
                    waker.wake_by_ref();
                }
                Poll::Pending
            }
        }
    }

    /// Waits no more, after a `poll_changed` that was pending. It may be polled again. It takes no memory.
    pub fn give_up(&mut self)
        ensures waits_not { self.new.seat ≡ None }
        ensures same { (self.new.shared ≡ self.old.shared) × (self.new.seen ≡ self.old.seen) }
    {
        self.sits(None);
    }

    /// Sets how it waits, and ends the wait before.
    fn sits(&mut self, seat: Option<Seat>)
        ensures { self.new ≡ record self.old { seat = seat } }
    {
        let before = mem::replace(&mut self.seat, seat);
        self.shared.leave(&self.rt, before);
    }
}

impl<T: Drop, K: Wake + Drop, R: Wait + Copy + Drop> Drop for Receiver<T, K, R> {
    fn drop(self) {
        let Receiver {
            shared,
            rt,
            seat,
            seen: _seen,
        } = self;
        shared.leave(&rt, seat);
    }
}
