//! A thread pool: four workers compute 1,000 jobs, and the results are collected in order.
use async_executor::Executor;
use async_task::{Future, Poll, Realm};
use std::io;
use workers::{JoinAll, run_until, run_workers};

/// A job: the square of a number.
#[derive(Drop)]
struct Square(u64);

impl<K> Future<K> for Square {
    type Output = u64;

    fn poll(&mut self, _waker: &K) -> Poll<u64> {
        Poll::Ready(self.0.wrapping_mul(self.0))
    }
}

#[test]
fn four_workers_do_a_thousand_jobs(rt: HostRuntime) -> io::Result<()> {
    let (alloc, realm) = (rt.alloc(), Realm::leak(rt, rt.alloc())?);
    let pool = Executor::new(rt, alloc, realm, 1_000)?;
    let work = |worker: usize| {
        let first = (worker as u64).saturating_mul(250);
        let mut jobs = (first..first.saturating_add(250)).map(Square);
        let (handles, _) = pool.spawn_many(&mut jobs);
        let all = JoinAll::new(rt, alloc, realm, handles);
        run_until(&rt, alloc, &pool, worker as u64, all)
    };
    let mut number = 0u64;
    for results in run_workers(&rt, alloc, 4, &work)? {
        for result in results? {
            assert!(rt; result == number.wrapping_mul(number));
            number = number.saturating_add(1);
        }
    }
    assert!(rt; number == 1_000);
    Ok(())
}
