//! A hundred sleepers: futures that each sleep for a time of their own, and one timer that calls them.
use async_executor::{ExWaker, Executor};
use async_task::{Future, Poll, Realm, Runtime};
use blocking::ThreadWaker;
use std::time::Duration;
use std::{io, thread};
use timer::{Sleep, Timer};
use workers::{JoinAll, run_until, run_until_beside};

type Waker<R> = ExWaker<u64, ThreadWaker, R>;

/// Sleeps, and then gives its number.
#[derive(Drop)]
struct Sleeper<R: Runtime>(Sleep<Waker<R>, R>, u64);

impl<R: Runtime> Future<Waker<R>> for Sleeper<R> {
    type Output = u64;

    fn poll(&mut self, waker: &Waker<R>) -> Poll<u64> {
        match self.0.poll(waker) {
            Poll::Ready(_) => Poll::Ready(self.1),
            Poll::Pending => Poll::Pending,
        }
    }
}

#[test]
fn a_hundred_sleepers_wake(rt: HostRuntime) -> io::Result<()> {
    let (alloc, realm) = (rt.alloc(), Realm::leak(rt, rt.alloc())?);
    let timer = Timer::new(rt, alloc, 100)?;
    let executor = Executor::new(rt, alloc, realm, 100)?;
    let mut sleepers = Vec::with_capacity(alloc, 100)?;
    for number in 0..100u64 {
        let sleep = timer.sleep(Duration::from_millis(99u64.saturating_sub(number)))?;
        sleepers.push(Sleeper(sleep, number))?;
    }
    timer.close();
    let (handles, _) = executor.spawn_many(&mut sleepers.into_iter());
    let all = JoinAll::new(rt, alloc, realm, handles);
    let run = || run_until(&rt, alloc, &executor, 0, all);
    let (woken, ()) = thread::join(&rt, run, || timer.drive());
    assert!(rt; woken??.into_iter().eq(0..100));
    Ok(())
}

#[test]
fn a_thread_drives_its_own_sleepers(rt: HostRuntime) -> io::Result<()> {
    let (alloc, realm) = (rt.alloc(), Realm::leak(rt, rt.alloc())?);
    let timer = Timer::new(rt, alloc, 10)?;
    let executor = Executor::new(rt, alloc, realm, 10)?;
    let mut sleepers = Vec::with_capacity(alloc, 10)?;
    for number in 0..10u64 {
        let sleep = timer.sleep(Duration::from_millis(9u64.saturating_sub(number)))?;
        sleepers.push(Sleeper(sleep, number))?;
    }
    let (handles, _) = executor.spawn_many(&mut sleepers.into_iter());
    let all = JoinAll::new(rt, alloc, realm, handles);
    let woken = run_until_beside(&rt, alloc, &executor, &timer, all)??;
    assert!(rt; woken.into_iter().eq(0..10));
    Ok(())
}
