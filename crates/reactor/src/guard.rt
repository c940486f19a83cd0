ghost use Rattle.std.specs.Prelude.{◌≡◌, IfOk, OnErr};
ghost use Rattle.reactor.specs.Attempts.{WouldHaveBlocked};

use crate::lane::Lane;
use crate::parts::{Attempt, Ready, Transfer, WouldBlock};
use async_task::Wake;
use std::io;
use std::sync::Wait;

/// A way of a source that was ready when it was polled. It has no drop: its owner tries a read or a write, or says that the
/// way stays ready. After `AsyncFdReadyGuard` of `tokio`.
#[must_use]
pub struct ReadyGuard<'a, K: Wake + Drop, R: Wait + Copy + Drop> {
    rt: R,
    lane: &'a Lane<K>,
    ready: Ready,
}

impl<'a, K: Wake + Drop, R: Wait + Copy + Drop> ReadyGuard<'a, K, R> {
    pub(crate) fn new(rt: R, lane: &'a Lane<K>, ready: Ready) -> Self
        ensures { result.lane.now ≡ lane.now }
    {
        ReadyGuard { rt, lane, ready }
    }

    /// Reads or writes, and answers what that gave. Where it would block, the way is no longer ready, unless an event came
    /// since it was polled: poll again. No lock is held meanwhile, and it takes no memory.
    pub fn try_io<T: Drop, F: FnOnce() -> io::Result<T>>(
        self,
        call: F,
    ) -> Result<io::Result<T>, WouldBlock>
        requires { F.pre call }
        ensures done { IfOk result (λ done. F.post call done × ¬ (WouldHaveBlocked done)) }
        ensures blocked { OnErr result ((done : _) × F.post call done × WouldHaveBlocked done) }
    {
        let ReadyGuard { rt, lane, ready } = self;
        match ready.try_io(call) {
            Attempt::Done(done) => Ok(done),
            Attempt::Blocked(stale) => Err(lane.lock(&rt).clear(stale)),
        }
    }

    /// As `try_io`, for a read or a write of at most this many bytes. A call that moved some bytes, and fewer than that, says that
    /// the next would block. So the way is no longer ready, unless an event came since it was polled or the last has come.
    /// That saves the call that would find it out.
    pub fn try_transfer<F: FnOnce() -> io::Result<usize>>(
        self,
        most: usize,
        call: F,
    ) -> Result<io::Result<usize>, WouldBlock>
        requires { F.pre call }
        ensures done { IfOk result (λ done. F.post call done × ¬ (WouldHaveBlocked done)) }
        ensures blocked { OnErr result ((done : _) × F.post call done × WouldHaveBlocked done) }
    {
        let ReadyGuard { rt, lane, ready } = self;
        match ready.try_transfer(most, call) {
            Transfer::Done(done) => Ok(done),
            Transfer::Short(count, stale) => {
                let _next = lane.lock(&rt).clear(stale);
                Ok(Ok(count))
            }
            Transfer::Blocked(stale) => Err(lane.lock(&rt).clear(stale)),
        }
    }

    /// The way stays ready: nothing was read or written.
    pub fn retain_ready(self) {
        let ReadyGuard {
            rt: _,
            lane: _,
            ready,
        } = self;
        ready.give_back();
    }
}
