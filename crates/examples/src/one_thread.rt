//! An executor of one thread: the README of `local_executor` shows what stands here.
use async_task::{Future, Nobody, Poll, Wake};
use local_executor::{LocalExWaker, LocalExecutor};
use std::test::Fail;

/// Gives twice its number.
#[derive(Drop)]
struct Double(u64);

impl<K: Wake> Future<K> for Double {
    type Output = u64;

    fn poll(&mut self, waker: &K) -> Poll<u64> {
        let _ = waker;
        Poll::Ready(self.0.saturating_mul(2))
    }
}

#[test]
fn one_thread_runs_an_executor(rt: HostRuntime) -> Result<(), Fail> {
    let executor = LocalExecutor::<Double, u64, Nobody, HostRuntime>::new(rt, rt.alloc(), 10)?;
    let Ok(mut handle) = executor.spawn(Double(21)) else {
        panic!(rt; "refused");
    };
    for _ in rt.forever() {
        if !executor.try_tick() {
            break;
        }
    }
    assert!(rt; handle.poll(&LocalExWaker::Outside(Nobody)) == Poll::Ready(Ok(42)));
    Ok(())
}
