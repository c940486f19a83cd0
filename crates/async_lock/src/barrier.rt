ghost use Rattle.async_lock.specs.Leading.{IsLeader};
ghost use Rattle.async_task.specs.declared.poll.Poll.TheVariants as poll;
ghost use Rattle.std.specs.Arc.{arc_value};
ghost use Rattle.std.specs.Prelude.{◌≡◌, ◌↔◌, IfOk, IsSome, IsTrue, None, Some};

use crate::barrier_wait::BarrierWait;
use crate::gathering::{Came, Gathering};
use crate::guarded::Guarded;
use crate::round::{Passed, Seat, Seen, WokeAll};
use async_task::{NoMemory, Poll, Wake};
use std::alloc::Global;
use std::mem;
use std::sync::{Arc, Wait};

/// A barrier at which this many parties wait for one another: the last that comes wakes all others, and from then on it can be
/// used again. It is one handle of the barrier; `clone` makes others. Wakers are of the type `K`. After `Barrier` of `async-lock`
/// and `tokio`.
///
/// Wakers are called and dropped with no lock held. To wait takes memory for a place among the waiters, where others wait already;
/// the party that comes last takes none.
///
/// ```
/// let Ok(wait) = self.barrier.wait() else {
///     return None;
/// };
/// match block_on::<ThreadWaker, _, _>(&self.rt, self.alloc, wait) {
///     Ok(Ok(passed)) if self.came.load(SeqCst) >= round.saturating_mul(3) => {
///         Some(passed.is_leader())
///     }
///     _ => None,
/// }
/// ```
pub struct Barrier<K: Wake + Drop, R: Wait + Copy + Drop> {
    gathering: Arc<Guarded<Gathering<K>>>,
    rt: R,
    // Set from a `poll_wait` that was pending until one that isn't.
    seat: Option<Seat>,
}

/// How a party passed a barrier.
#[derive(Drop)]
pub enum BarrierWaitResult {
    /// It came last, and woke all others.
    Leader(WokeAll),
    /// Another came last.
    Other(Passed),
}

impl BarrierWaitResult {
    /// Whether it came last. Of the parties that pass together exactly one did. Takes no memory.
    pub fn is_leader(&self) -> bool
        ensures { IsTrue result ↔ IsLeader self.now }
    {
        matches!(self, BarrierWaitResult::Leader(_))
    }
}

impl<K: Wake + Drop, R: Wait + Copy + Drop> Barrier<K, R> {
    /// Makes a barrier for this many parties; one for no party is as one for one, which never waits. It takes memory.
    pub fn new(rt: R, alloc: Global, parties: u64) -> Result<Self, NoMemory>
        ensures { IfOk result (λ barrier. barrier.seat ≡ None) }
    {
        match Arc::new(alloc, Guarded::new(Gathering::new(alloc, parties))) {
            Ok(gathering) => Ok(Barrier::of(rt, gathering)),
            Err(_) => Err(NoMemory),
        }
    }

    fn of(rt: R, gathering: Arc<Guarded<Gathering<K>>>) -> Self
        ensures gathering { result.gathering ≡ gathering }
        ensures waits_not { result.seat ≡ None }
    {
        Barrier {
            gathering,
            rt,
            seat: None,
        }
    }

    /// Makes another handle of the same barrier, for another party; refused where it has 2^63 handles. It takes no memory.
    pub fn clone(&self) -> Result<Self, NoMemory>
        ensures same { IfOk result (λ barrier. arc_value barrier.gathering ≡ arc_value self.now.gathering) }
        ensures waits_not { IfOk result (λ barrier. barrier.seat ≡ None) }
    {
        match Arc::try_clone(&self.gathering) {
            Ok(gathering) => Ok(Barrier::of(self.rt, gathering)),
            Err(_) => Err(NoMemory),
        }
    }

    /// Makes a future that comes to the barrier at its first poll, and is ready once all have come. Refused where the barrier has
    /// 2^63 handles; it takes no memory.
    pub fn wait(&self) -> Result<BarrierWait<K, R>, NoMemory>
        ensures same { IfOk result (λ wait. arc_value wait.barrier.gathering ≡ arc_value self.now.gathering) }
    {
        match self.clone() {
            Ok(barrier) => Ok(BarrierWait::new(barrier)),
            Err(error) => Err(error),
        }
    }

    /// Polls as the future of `wait` does, for a future that has the barrier in a field. It comes, and waits until all have come;
    /// polled after that it comes again. It takes memory for a place among the waiters, where others wait already; `NoMemory` says
    /// that it has not come. After a pending poll, a caller that won't poll again calls `give_up`, or drops this handle. Until
    /// then it counts as one that came.
    pub fn poll_wait(&mut self, waker: &K) -> Poll<Result<BarrierWaitResult, NoMemory>>
        ensures waits { result ≡ poll.Pending → IsSome self.new.seat }
        ensures ended { (answer : _) → result ≡ poll.Ready answer → self.new.seat ≡ None }
        ensures same { self.new.gathering ≡ self.old.gathering }
    {
        let copy = waker.clone();
        let is_left = copy.is_some();
        let found = match self.seat.take() {
            None => self.come(copy),
            Some(seat) => self.look(seat, copy),
        };
        if matches!(found, Poll::Pending) && !is_left {
            waker.wake_by_ref();
        }
        found
    }

    /// Comes to the barrier.
    fn come(&mut self, copy: Option<K>) -> Poll<Result<BarrierWaitResult, NoMemory>>
        ensures waits { result ≡ poll.Pending → IsSome self.new.seat }
        ensures ended { (answer : _) → result ≡ poll.Ready answer → self.new.seat ≡ self.old.seat }
        ensures same { self.new.gathering ≡ self.old.gathering }
    {
        let came = self.gathering.lock(&self.rt).come(copy);
        match came {
            Came::Opens(ended, _copy) => {
                Poll::Ready(Ok(BarrierWaitResult::Leader(ended.wake_all())))
            }
            Came::Waits(seat) => {
                self.sits(Some(seat));
                Poll::Pending
            }
            Came::NoMemory(_copy) => Poll::Ready(Err(NoMemory)),
        }
    }

    /// Looks whether all have come.
    fn look(&mut self, seat: Seat, copy: Option<K>) -> Poll<Result<BarrierWaitResult, NoMemory>>
        ensures waits { result ≡ poll.Pending → IsSome self.new.seat }
        ensures ended { (answer : _) → result ≡ poll.Ready answer → self.new.seat ≡ self.old.seat }
        ensures same { self.new.gathering ≡ self.old.gathering }
    {
        let seen = self.gathering.lock(&self.rt).look(seat, copy);
        match seen {
            Seen::Over(passed, _copy) => Poll::Ready(Ok(BarrierWaitResult::Other(passed))),
            Seen::Waits(seat, _before) => {
                self.sits(Some(seat));
                Poll::Pending
            }
        }
    }

    /// Leaves, after a `poll_wait` that was pending, as if it had never come; where all have come since, they passed. It may be
    /// polled again. It takes no memory.
    pub fn give_up(&mut self)
        ensures waits_not { self.new.seat ≡ None }
        ensures same { self.new.gathering ≡ self.old.gathering }
    {
        self.sits(None);
    }

    /// Sets how it waits, and ends the wait before.
    fn sits(&mut self, seat: Option<Seat>)
        ensures { self.new ≡ record self.old { seat = seat } }
    {
        let before = mem::replace(&mut self.seat, seat);
        leave(&self.rt, &*self.gathering, before);
    }
}

/// Leaves as if it had never come, if it waited.
fn leave<K: Wake + Drop, R: Wait>(rt: &R, gathering: &Guarded<Gathering<K>>, seat: Option<Seat>) {
    if let Some(seat) = seat {
        let waker = gathering.lock(rt).leave(seat);
        drop(waker);
    }
}

impl<K: Wake + Drop, R: Wait + Copy + Drop> Drop for Barrier<K, R> {
    fn drop(self) {
        let Barrier {
            gathering,
            rt,
            seat,
        } = self;
        leave(&rt, &*gathering, seat);
    }
}
