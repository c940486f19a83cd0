//! A future of `async_task` as one of the library's `futures`, so that its executors run it.
#![tactic(auto)]

ghost use Rattle.std.specs.Arc.{arc_value};
ghost use Rattle.futures.specs.Task.{Covers, Keeps};
ghost use Rattle.std.specs.Prelude.{◌≡◌, if◌then◌else◌, false, true, IfErr, IfOk, None, Some};

use async_task::{Awaiter, Output, Schedule, Scheduled, Wake};
use futures::spin::lock;
use futures::task::{Context, Poll, Source, Waker};
use std::alloc::Global;
use std::mem;
use std::sync::{Arc, Mutex, Wait};

#[cfg(test)]
mod tests;

/// Whether the future was woken since its poll began, and who polls it, where it wasn't.
#[derive(Drop)]
struct Heard {
    is_woken: bool,
    waker: Option<Waker>,
    ghost heard: { is_woken ≡ true → waker ≡ None },
}

/// What a future's wakers share with who polls it.
#[derive(Drop)]
struct Shared {
    source: Source,
    heard: Mutex<Heard>,
}

/// Each call is one section of whoever locks it. None calls or drops a waker: what comes out is to be dropped once the lock is given
/// back.
impl Heard {
    /// A poll begins: forgets the wakes of before.
    fn begin(&mut self)
        ensures forgotten { self.new.is_woken ≡ false }
        ensures waker { self.new.waker ≡ self.old.waker }
    {
        self.is_woken = false;
    }

    /// The future was woken. The task's waker comes out, where one was left: to be dropped, which wakes the task.
    fn wake(&mut self) -> Option<Waker>
        ensures woken { self.new.is_woken ≡ true }
        ensures out { result ≡ self.old.waker }
    {
        let waker = self.waker.take();
        self.is_woken = true;
        waker
    }

    /// The waker that was left before, where one was, to be left anew. None where the future was woken since its poll began.
    fn take(&mut self) -> Option<Option<Waker>>
        ensures out { result ≡ (if self.old.is_woken then None else Some self.old.waker) }
        ensures same { self.new.is_woken ≡ self.old.is_woken }
    {
        if self.is_woken {
            return None;
        }
        Some(self.waker.take())
    }

    /// Leaves this waker, unless the future was woken since its poll began. The one that is to be dropped comes out.
    fn leave(&mut self, waker: Option<Waker>) -> Option<Waker>
        ensures out { result ≡ (if self.old.is_woken then waker else self.old.waker) }
        ensures left { self.new.waker ≡ (if self.old.is_woken then self.old.waker else waker) }
        ensures same { self.new.is_woken ≡ self.old.is_woken }
    {
        if self.is_woken {
            return waker;
        }
        mem::replace(&mut self.waker, waker)
    }
}

impl Shared {
    /// Forgets the wakes of before. False where the lock couldn't be had.
    fn begin(&self) -> bool {
        match lock(&self.heard) {
            Some(mut heard) => {
                heard.begin();
                true
            }
            None => false,
        }
    }

    /// Asks to be polled again where the future was woken, and else leaves the task's waker.
    ///
    /// The waker that was left before comes out first, and goes back behind the registration: so no waker is made, called or
    /// dropped under the lock. Where the future is woken between, the waker is dropped, which wakes the task.
    fn wait<T>(&self, cx: &mut Context<'_>) -> Poll<T>
        ensures pending { result ≡ Poll.Pending }
        ensures registered { Covers cx.new (λ s. s ≡ self.now.source.id) }
        ensures kept { Keeps cx.old cx.new }
    {
        let Some(mut left) = self.take() else {
            return cx.yield_now();
        };
        let polled = cx.register(&self.source, &mut left);
        drop(self.leave(left));
        polled
    }

    fn take(&self) -> Option<Option<Waker>> {
        lock(&self.heard)?.take()
    }

    fn leave(&self, waker: Option<Waker>) -> Option<Waker> {
        match lock(&self.heard) {
            Some(mut heard) => heard.leave(waker),
            None => waker,
        }
    }

    fn wake(&self) -> Option<Waker> {
        lock(&self.heard)?.wake()
    }
}

/// The waker that an adapted future is polled with. It wakes the task of the library's that polls it.
#[derive(Drop)]
pub struct ContextWaker {
    shared: Arc<Shared>,
}

/// A future of `async_task` as a future of the library's. While it isn't woken it waits, and isn't polled.
///
/// `K` is what it is polled with: a `ContextWaker`, or what is made of one, as the `ExWaker` of an executor whose wakers from outside
/// are `ContextWaker`s. So the future may be a handle, a tick or a run.
#[derive(Drop)]
pub struct Adapted<F, K> {
    future: F,
    shared: Arc<Shared>,
    waker: K,
}

impl Wake for ContextWaker {
    ghost is_same = { λ a b. arc_value a.shared ≡ arc_value b.shared };

    fn wake(self) {
        self.wake_by_ref();
    }

    fn wake_by_ref(&self) {
        // A waker of the library's wakes its task where it is dropped.
        drop(self.shared.wake());
    }

    fn clone(&self) -> Option<Self> {
        match Arc::try_clone(&self.shared) {
            Ok(shared) => Some(ContextWaker { shared }),
            Err(_) => None,
        }
    }

    fn will_wake(&self, _other: &Self) -> bool {
        false
    }
}

impl<F, T: Output, S, M, R> From<ContextWaker> for Awaiter<F, T, S, M, ContextWaker, R>
where
    F: Drop + 'static,
    S: Schedule<Scheduled<F, T, S, M, ContextWaker, R>> + Drop + 'static,
    M: Copy + Drop + 'static,
    R: Wait + Copy + Drop,
{
    fn from(waker: ContextWaker) -> Self {
        Awaiter::Outside(waker)
    }
}

impl<F, K> Adapted<F, K> {
    /// Takes memory for what its wakers share. For want of it the future comes back, never polled.
    pub fn new(alloc: Global, future: F) -> Result<Self, F>
    where
        F: Drop,
        K: From<ContextWaker> + Drop,
        ensures kept { IfOk result (λ adapted. adapted.future ≡ future) }
        ensures back { IfErr result (λ back. back ≡ future) }
    {
        let heard = Mutex::new(Heard {
            is_woken: false,
            waker: None,
        });
        let source = Source::new();
        let Ok(shared) = Arc::new(alloc, Shared { source, heard }) else {
            return Err(future);
        };
        match Arc::try_clone(&shared) {
            Ok(same) => Ok(Adapted {
                future,
                shared,
                waker: K::from(ContextWaker { shared: same }),
            }),
            Err(_) => Err(future),
        }
    }
}

impl<F, K> futures::Future for Adapted<F, K>
where
    F: async_task::Future<K> + Drop,
    K: Drop,
{
    type Output = F::Output;

    ghost needs = { λ adapted s. s ≡ (arc_value adapted.shared).source.id };

    /// 1. Forgets the wakes of before.
    /// 2. Polls the future.
    /// 3. Where it was woken meanwhile, asks to be polled again, and else leaves the task's waker.
    fn poll(&mut self, cx: &mut Context<'_>) -> Poll<F::Output> {
        if !self.shared.begin() {
            return cx.yield_now();
        }
        if let async_task::Poll::Ready(output) = self.future.poll(&self.waker) {
            return Poll::Ready(output);
        }
        self.shared.wait(cx)
    }
}
