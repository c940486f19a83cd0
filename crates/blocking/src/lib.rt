//! A future is polled on this thread, which parks between wakes.
#![tactic(auto)]

ghost use Rattle.std.specs.Prelude.{◌≡◌, IfErr};

use async_task::{Awaiter, Future, Output, Poll, Schedule, Scheduled, Wake};
use crossbeam_utils::sync::{Parker, Unparker};
use std::alloc::{AllocError, Global};
use std::sync::Wait;
use std::time::{Clock, Duration};

/// Wakes the thread that waits in `block_on`: a waker from outside, for a future that awaits tasks.
#[derive(Drop)]
pub struct ThreadWaker(Unparker);

impl Wake for ThreadWaker {
    ghost is_same = { λ a b. Unit {0} };

    fn wake(self) {
        self.0.unpark();
    }

    fn wake_by_ref(&self) {
        self.0.unpark();
    }

    fn clone(&self) -> Option<Self> {
        match self.0.clone() {
            Ok(unparker) => Some(ThreadWaker(unparker)),
            Err(_) => None,
        }
    }

    fn will_wake(&self, _other: &Self) -> bool {
        false
    }
}

/// A parker and what wakes its thread.
fn pair(alloc: Global) -> Result<(Parker, ThreadWaker), AllocError> {
    let parker = Parker::new(alloc)?;
    let waker = ThreadWaker(parker.unparker().clone()?);
    Ok((parker, waker))
}

impl<F, T: Output, S, M, R> From<ThreadWaker> for Awaiter<F, T, S, M, ThreadWaker, R>
where
    F: Drop + 'static,
    S: Schedule<Scheduled<F, T, S, M, ThreadWaker, R>> + Drop + 'static,
    M: Copy + Drop + 'static,
    R: Wait + Copy + Drop,
{
    fn from(waker: ThreadWaker) -> Self {
        Awaiter::Outside(waker)
    }
}

/// Polls the future on this thread until it is ready, and answers its output. Between two polls the thread parks until its waker
/// is woken. For want of memory for the parker the future comes back, never polled.
pub fn block_on<K, F, R: Wait>(rt: &R, alloc: Global, future: F) -> Result<F::Output, F>
where
    K: From<ThreadWaker> + Drop,
    F: Future<K> + Drop,
    ensures { IfErr result (λ back. back ≡ future) }
{
    let (parker, thread) = match pair(alloc) {
        Ok(both) => both,
        Err(_) => return Err(future),
    };
    let waker = K::from(thread);
    let mut future = future;
    for _ in rt.forever() {
        if let Poll::Ready(output) = future.poll(&waker) {
            return Ok(output);
        }
        parker.park(rt);
    }
    unreachable!()
}

/// What a thread drives between two polls of its future, before it parks: a timer, for example.
pub trait Beside<K> {
    /// Drives it, without a wait. Answers for how long the thread may park at most. Where it has to be driven before that, the
    /// waker is woken.
    fn turn(&self, waker: &K) -> Option<Duration>;
}

/// As `block_on`, on a thread that drives something else between two polls. It parks until its waker is woken, and at most as long
/// as that says.
pub fn block_on_beside<K, F, B: Beside<K>, R: Wait + Clock>(
    rt: &R,
    alloc: Global,
    beside: &B,
    future: F,
) -> Result<F::Output, F>
where
    K: From<ThreadWaker> + Drop,
    F: Future<K> + Drop,
    ensures { IfErr result (λ back. back ≡ future) }
{
    let (parker, thread) = match pair(alloc) {
        Ok(both) => both,
        Err(_) => return Err(future),
    };
    let waker = K::from(thread);
    let mut future = future;
    for _ in rt.forever() {
        if let Poll::Ready(output) = future.poll(&waker) {
            return Ok(output);
        }
        match beside.turn(&waker) {
            Some(longest) => parker.park_timeout(rt, longest),
            None => parker.park(rt),
        }
    }
    unreachable!()
}
