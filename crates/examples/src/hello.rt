//! The shortest program with an executor: one future, and its output.
use async_executor::Executor;
use async_task::{Future, Poll, Realm};
use std::io;
use workers::complete;

/// Gives a number at its first poll.
#[derive(Drop)]
struct Hello;

impl<K> Future<K> for Hello {
    type Output = u64;

    fn poll(&mut self, _waker: &K) -> Poll<u64> {
        Poll::Ready(42)
    }
}

#[test]
fn one_future_gives_its_output(rt: HostRuntime) -> io::Result<()> {
    let (alloc, realm) = (rt.alloc(), Realm::leak(rt, rt.alloc())?);
    let executor = Executor::new(rt, alloc, realm, 1)?;
    let task = executor.spawn(Hello)?;
    let answer = complete(&rt, alloc, &executor, task)?;
    assert!(rt; answer == 42);
    Ok(())
}
