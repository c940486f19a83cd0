//! An executor that never ends, and a future on it.
use async_executor::{ExRealm, StaticExecutor};
use async_task::{Awaiter, Future, Nobody, Poll, Realm, Runtime};
use std::alloc::Global;
use std::io;

/// Gives twice its number.
#[derive(Drop)]
struct Double(u64);

impl<K> Future<K> for Double {
    type Output = u64;

    fn poll(&mut self, _waker: &K) -> Poll<u64> {
        Poll::Ready(self.0.saturating_mul(2))
    }
}

/// Runs the future, and says whether its output is 42.
fn gives_twice<R: Runtime>(rt: R, alloc: Global, realm: &'static ExRealm<u64, Nobody, R>) -> bool {
    let Ok(executor) = StaticExecutor::new(rt, alloc, realm, 10) else {
        return false;
    };
    let Ok(mut task) = executor.spawn(Double(21)) else {
        return false;
    };
    let is_run = executor.try_tick();
    is_run & matches!(task.poll(&Awaiter::Outside(Nobody)), Poll::Ready(Ok(42)))
}

#[test]
fn an_executor_that_never_ends_runs_a_future(rt: HostRuntime) -> io::Result<()> {
    let realm = Realm::leak(rt, rt.alloc())?;
    assert!(rt; gives_twice(rt, rt.alloc(), realm));
    Ok(())
}
