//! A periodic task: a future that does something at each tick, on the thread that drives the timer.
use async_executor::{ExWaker, Executor};
use async_task::{Future, Poll, Realm, Runtime};
use blocking::ThreadWaker;
use std::io;
use std::time::{Clock, Duration};
use timer::{Interval, Timer};
use workers::run_until_beside;

type Waker<R> = ExWaker<u64, ThreadWaker, R>;

/// Counts its ticks down, and gives how many are left once it ends.
#[derive(Drop)]
struct Ticking<R: Runtime + Clock> {
    interval: Interval<Waker<R>, R>,
    left: u64,
}

impl<R: Runtime + Clock> Future<Waker<R>> for Ticking<R> {
    type Output = u64;

    fn poll(&mut self, waker: &Waker<R>) -> Poll<u64> {
        for left in (0..self.left).rev() {
            match self.interval.poll(waker) {
                Poll::Pending => return Poll::Pending,
                Poll::Ready(Err(_)) => break,
                Poll::Ready(Ok(())) => self.left = left,
            }
        }
        Poll::Ready(self.left)
    }
}

#[test]
fn five_ticks_come(rt: HostRuntime) -> io::Result<()> {
    let (alloc, realm) = (rt.alloc(), Realm::leak(rt, rt.alloc())?);
    let executor = Executor::new(rt, alloc, realm, 1)?;
    let timer = Timer::new(rt, alloc, 1)?;
    let interval = timer.interval(Duration::from_millis(10))?;
    let task = executor.spawn(Ticking { interval, left: 5 })?;
    let left = run_until_beside(&rt, alloc, &executor, &timer, task)??;
    assert!(rt; left == 0);
    Ok(())
}
