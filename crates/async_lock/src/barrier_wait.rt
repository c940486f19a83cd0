ghost use Rattle.async_lock.specs.Giving.{gave};
ghost use Rattle.async_task.specs.declared.poll.Poll.TheVariants as poll;
ghost use Rattle.std.specs.Prelude.{◌≡◌, IsSome, true, false};

use crate::barrier::{Barrier, BarrierWaitResult};
use async_task::{Future, NoMemory, Poll, Wake};
use std::sync::Wait;

/// Waits at a barrier: a future that is ready once all parties have come. Each poll leaves its waker in the place of the one
/// before. Where no copy of the waker can be had it calls the waker, so that it is polled again. Once it has passed it is pending,
/// and calls no waker.
///
/// Dropped while it waits, it leaves as if it had never come.
#[derive(Drop)]
pub struct BarrierWait<K: Wake + Drop, R: Wait + Copy + Drop> {
    barrier: Barrier<K, R>,
    has_passed: bool,
}

impl<K: Wake + Drop, R: Wait + Copy + Drop> BarrierWait<K, R> {
    pub(crate) fn new(barrier: Barrier<K, R>) -> Self
        ensures barrier { result.barrier ≡ barrier }
        ensures passed_not { result.has_passed ≡ false }
    {
        BarrierWait {
            barrier,
            has_passed: false,
        }
    }
}

impl<K: Wake + Drop, R: Wait + Copy + Drop> Future<K> for BarrierWait<K, R> {
    type Output = Result<BarrierWaitResult, NoMemory>;

    fn poll(&mut self, waker: &K) -> Poll<Result<BarrierWaitResult, NoMemory>>
        ensures waits { self.old.has_passed ≡ false → result ≡ poll.Pending → IsSome self.new.barrier.seat }
        ensures same { self.new.barrier.gathering ≡ self.old.barrier.gathering }
        ensures again { self.old.has_passed ≡ true → (result ≡ poll.Pending) × (self.new.has_passed ≡ true) }
        ensures passed { self.old.has_passed ≡ false → self.new.has_passed ≡ gave result }
    {
        if self.has_passed {
            return Poll::Pending;
        }
        let polled = self.barrier.poll_wait(waker);
        self.has_passed = matches!(polled, Poll::Ready(Ok(_)));
        polled
    }
}
