use crate::{Adapted, ContextWaker};
use async_task::{Future, Poll, Wake};
use futures::executor::block_on;
use std::sync::atomic::AtomicU64;
use std::sync::atomic::Ordering::SeqCst;
use std::sync::{Mutex, Wait};
use std::test::Fail;
use std::thread;

/// Wakes itself so many times, and then is ready with the number of its polls.
#[derive(Drop)]
struct Woken {
    left: u64,
    polls: u64,
}

impl<K: Wake> Future<K> for Woken {
    type Output = u64;

    fn poll(&mut self, waker: &K) -> Poll<u64> {
        self.polls = self.polls.saturating_add(1);
        if self.left == 0 {
            return Poll::Ready(self.polls);
        }
        self.left -= 1;
        waker.wake_by_ref();
        Poll::Pending
    }
}

/// Leaves its waker at each poll, and is ready with the number of its polls once it was called twice.
#[derive(Drop)]
struct Called<'a, R> {
    left: &'a Mutex<Option<ContextWaker>>,
    calls: &'a AtomicU64,
    rt: R,
    polls: u64,
}

impl<R: Wait> Future<ContextWaker> for Called<'_, R> {
    type Output = u64;

    fn poll(&mut self, waker: &ContextWaker) -> Poll<u64> {
        self.polls = self.polls.saturating_add(1);
        if self.calls.load(SeqCst) > 1 {
            return Poll::Ready(self.polls);
        }
        let copy = waker.clone();
        let mut left = self.left.lock(&self.rt);
        *left = copy;
        Poll::Pending
    }
}

/// Calls the waker that is left, a while after it was.
fn call<R: Wait>(rt: &R, left: &Mutex<Option<ContextWaker>>, calls: &AtomicU64) {
    for _ in 0..100_000_000u64 {
        let waker: Option<ContextWaker> = left.lock(rt).take();
        if let Some(waker) = waker {
            for _ in 0..1_000 {
                thread::yield_now();
            }
            calls.fetch_add(1, SeqCst);
            waker.wake();
            return;
        }
    }
}

#[test]
fn each_wake_is_a_poll(rt: HostRuntime) -> Result<(), Fail> {
    let Ok(adapted) = Adapted::<_, ContextWaker>::new(rt.alloc(), Woken { left: 3, polls: 0 })
    else {
        panic!(rt; "refused");
    };
    assert!(rt; matches!(block_on(&rt, adapted), Ok(4)));
    Ok(())
}

/// Between two calls it isn't polled.
#[test]
fn a_thread_calls_one_that_waits(rt: HostRuntime) -> Result<(), Fail> {
    let (left, calls) = (Mutex::new(None), AtomicU64::new(0));
    let called = Called {
        left: &left,
        calls: &calls,
        rt,
        polls: 0,
    };
    let Ok(adapted) = Adapted::<_, ContextWaker>::new(rt.alloc(), called) else {
        panic!(rt; "refused");
    };
    let wake = || {
        call(&rt, &left, &calls);
        call(&rt, &left, &calls);
    };
    let (ended, ()) = thread::join(&rt, || block_on(&rt, adapted), wake);
    assert!(rt; matches!(ended, Ok(3)));
    Ok(())
}
