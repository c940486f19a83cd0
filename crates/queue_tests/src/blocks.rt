//! A future that is polled on a thread, which parks between wakes.
use async_task::{Future, Poll, Wake};
use blocking::{ThreadWaker, block_on};
use std::alloc::{AllocError, Global};
use std::sync::atomic::{AtomicBool, AtomicU64, Ordering};
use std::sync::{Arc, Mutex, Wait};
use std::thread::{Threads, join, yield_now};

/// Ready once it was polled this many times more, and wakes itself at each poll.
#[derive(Drop)]
struct Countdown {
    left: u64,
}

impl<K: Wake> Future<K> for Countdown {
    type Output = u64;

    fn poll(&mut self, waker: &K) -> Poll<u64> {
        if self.left == 0 {
            return Poll::Ready(7);
        }
        self.left -= 1;
        waker.wake_by_ref();
        Poll::Pending
    }
}

#[test]
fn a_future_that_wakes_itself_is_polled_until_it_is_ready(rt: HostRuntime) {
    let answer = block_on::<ThreadWaker, Countdown, HostRuntime>(
        &rt,
        rt.alloc(),
        Countdown { left: 3 },
    );
    match answer {
        Ok(output) => assert!(&rt; output == 7),
        Err(_) => assert!(&rt; false),
    }
}

/// A future that is ready once it was woken. Until then it leaves a copy of its waker in the box. It counts its polls.
#[derive(Drop)]
struct Told<R> {
    rt: R,
    polls: Arc<AtomicU64>,
    told: Arc<AtomicBool>,
    left: Arc<Mutex<Option<ThreadWaker>>>,
}

impl<R: Wait> Future<ThreadWaker> for Told<R> {
    type Output = bool;

    fn poll(&mut self, waker: &ThreadWaker) -> Poll<bool> {
        self.polls.fetch_add(1, Ordering::SeqCst);
        if self.told.load(Ordering::SeqCst) {
            return Poll::Ready(true);
        }
        *self.left.lock(&self.rt) = waker.clone();
        Poll::Pending
    }
}

/// Waits until a waker was left, tells the future after some turns more, and wakes.
fn tell<R: Wait>(rt: &R, told: &AtomicBool, left: &Mutex<Option<ThreadWaker>>) -> bool {
    for _ in 0..10_000_000 {
        let waker = left.lock(rt).take();
        if let Some(waker) = waker {
            for _ in 0..1_000 {
                yield_now();
            }
            told.store(true, Ordering::SeqCst);
            waker.wake();
            return true;
        }
        yield_now();
    }
    false
}

/// Blocks one thread on a future that another one tells: whether each came to its end, and how often the future was polled.
fn wait_to_be_told<R: Threads + Wait + Sync + Copy + Drop + Send>(
    rt: R,
    alloc: Global,
) -> Result<(bool, bool, u64), AllocError> {
    let polls = Arc::new(alloc, AtomicU64::new(0))?;
    let told = Arc::new(alloc, AtomicBool::new(false))?;
    let left = Arc::new(alloc, Mutex::new(None))?;
    let future = Told {
        rt,
        polls: Arc::try_clone(&polls)?,
        told: Arc::try_clone(&told)?,
        left: Arc::try_clone(&left)?,
    };
    let (waited, tells) = join(
        &rt,
        || match block_on::<ThreadWaker, Told<R>, R>(&rt, alloc, future) {
            Ok(output) => output,
            Err(_) => false,
        },
        || tell(&rt, &*told, &*left),
    );
    Ok((waited, tells, polls.load(Ordering::SeqCst)))
}

/// The thread polls its future once, parks while the other lets many turns go by, and polls it once more when that wakes it. One
/// that didn't park would poll it again and again meanwhile.
#[test]
fn a_thread_parks_until_another_wakes_it(rt: HostRuntime) {
    match wait_to_be_told(rt, rt.alloc()) {
        Ok(ended) => assert!(&rt; ended == (true, true, 2)),
        Err(_) => assert!(&rt; false),
    }
}

/// Leaves a copy of its waker in the box, and says whether that wakes whom the one before did.
#[derive(Drop)]
struct Compares<'a, R>(R, &'a Mutex<Option<ThreadWaker>>);

impl<R: Wait> Future<ThreadWaker> for Compares<'_, R> {
    type Output = bool;

    fn poll(&mut self, waker: &ThreadWaker) -> Poll<bool> {
        let before = self.1.lock(&self.0).take();
        *self.1.lock(&self.0) = waker.clone();
        match before {
            Some(before) => Poll::Ready(waker.will_wake(&before)),
            None => Poll::Ready(true),
        }
    }
}

/// Each wait has a parker of its own: so a future that was polled in one, and now is in another, has to leave its waker anew.
#[test]
fn the_wakers_of_two_waits_are_told_apart(rt: HostRuntime) {
    let (alloc, left) = (rt.alloc(), Mutex::new(None));
    let compared = [
        block_on::<ThreadWaker, _, _>(&rt, alloc, Compares(rt, &left)).is_ok_and(|first| first),
        block_on::<ThreadWaker, _, _>(&rt, alloc, Compares(rt, &left)).is_ok_and(|same| !same),
    ];
    assert!(&rt; compared == [true, true]);
}
