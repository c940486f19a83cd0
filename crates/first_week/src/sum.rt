//! The shortest program: one future, and its output.
use async_task::{Future, Poll, Realm};
use pool::PoolOf;
use std::io;

/// Adds two numbers.
#[derive(Drop)]
struct Sum(u64, u64);

impl<K> Future<K> for Sum {
    type Output = u64;

    fn poll(&mut self, _waker: &K) -> Poll<u64> {
        Poll::Ready(self.0.saturating_add(self.1))
    }
}

#[test]
fn two_and_three(rt: HostRuntime) -> io::Result<()> {
    let realm = Realm::leak(rt, rt.alloc())?;
    let pool = PoolOf::<Sum, _, _>::new(rt, rt.alloc(), realm, 1)?;
    let answer = pool.spawn(Sum(2, 3))?;
    let sum = pool.run(answer)??;
    println!(rt; "{sum}")
}
