//! Two threads that run one executor: the README of `async_executor` shows what stands here.
use async_executor::Executor;
use async_task::{Future, Poll, Realm, Wake};
use blocking::{ThreadWaker, block_on};
use std::test::Fail;
use std::thread;

/// Gives way once, and then gives twice its number.
#[derive(Drop)]
struct Double(u64, bool);

impl<K: Wake> Future<K> for Double {
    type Output = u64;

    fn poll(&mut self, waker: &K) -> Poll<u64> {
        if self.1 {
            return Poll::Ready(self.0.saturating_mul(2));
        }
        self.1 = true;
        waker.wake_by_ref();
        Poll::Pending
    }
}

/// Each thread spawns a future, and blocks on a run until that one has its output.
#[test]
fn two_threads_run_an_executor(rt: HostRuntime) -> Result<(), Fail> {
    let (alloc, realm) = (rt.alloc(), Realm::leak(rt, rt.alloc())?);
    let executor = Executor::<Double, u64, ThreadWaker, HostRuntime>::new(rt, alloc, realm, 100)?;
    let play = &|party| {
        let Ok(task) = executor.spawn(Double(party as u64, false)) else {
            return None;
        };
        let Ok(run) = executor.run(task) else {
            return None;
        };
        match block_on(&rt, alloc, run) {
            Ok(Ok(Ok(output))) => Some(output),
            _ => None,
        }
    };
    let outputs = thread::map_indices(&rt, alloc, 2, play)?;
    assert!(rt; outputs.as_slice() == [Some(0), Some(2)].as_slice());
    Ok(())
}
