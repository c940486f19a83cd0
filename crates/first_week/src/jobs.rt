//! A pool: a thousand jobs on four threads, and their outputs in order.
use async_task::{Future, Poll, Realm};
use pool::{Answers, PoolOf};
use std::{io, thread};
use waiting::semaphore::Semaphore;
use workers::run_workers;

/// Counts the steps that a number takes to one: it is halved where it is even, else it is tripled, and one is added.
#[derive(Drop)]
struct Collatz(u64);

impl<K> Future<K> for Collatz {
    type Output = u64;

    fn poll(&mut self, _waker: &K) -> Poll<u64> {
        let mut number = self.0;
        for steps in 0..1_000 {
            if number <= 1 {
                return Poll::Ready(steps);
            }
            number = match number % 2 {
                0 => number / 2,
                _ => number.saturating_mul(3).saturating_add(1),
            };
        }
        Poll::Ready(1_000)
    }
}

#[test]
fn four_threads_do_a_thousand_jobs(rt: HostRuntime) -> io::Result<()> {
    let (alloc, realm) = (rt.alloc(), Realm::leak(rt, rt.alloc())?);
    let pool = PoolOf::<Collatz, _, _>::new(rt, alloc, realm, 1_000)?;
    let mut answers = Vec::with_capacity(alloc, 1_000)?;
    for number in 1..=1_000 {
        answers.push(pool.spawn(Collatz(number))?)?;
    }
    let over = Semaphore::new(rt, alloc, 0)?;
    let lead = || {
        let steps = pool.run(Answers::new(alloc, answers));
        over.close();
        steps
    };
    let help = |helper: usize| match pool.run_from(over.acquire()?, helper as u64) {
        Ok(_) => Ok(()),
        Err(fault) => Err(fault),
    };
    let (steps, helped) = thread::join(&rt, lead, || run_workers(&rt, alloc, 3, &help));
    assert!(rt; helped.is_ok());
    let steps = steps??;
    assert!(rt; steps.len() == 1_000);
    assert!(rt; (steps[0] == 0) & (steps[26] == 111) & (steps[999] == 111));
    Ok(())
}
