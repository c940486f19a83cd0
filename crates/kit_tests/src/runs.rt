//! Runs and handles of an executor as futures of the library's.
use adapted::{Adapted, ContextWaker};
use async_executor::{ExWaker, Executor};
use async_task::{Future, Poll, Realm, Wake};
use futures::executor::block_on;
use std::io;

/// Lets others go first, and then gives twice its number.
#[derive(Drop)]
struct Double(u64, bool);

impl<K: Wake> Future<K> for Double {
    type Output = u64;

    fn poll(&mut self, waker: &K) -> Poll<u64> {
        if self.1 {
            return Poll::Ready(self.0.saturating_mul(2));
        }
        self.1 = true;
        waker.wake_by_ref();
        Poll::Pending
    }
}

type Waker = ExWaker<u64, ContextWaker, HostRuntime>;

#[test]
fn the_library_polls_a_run(rt: HostRuntime) -> io::Result<()> {
    let (alloc, realm) = (rt.alloc(), Realm::leak(rt, rt.alloc())?);
    let executor = Executor::<Double, u64, ContextWaker, HostRuntime>::new(rt, alloc, realm, 4)?;
    let task = executor.spawn(Double(21, false))?;
    let Ok(run) = executor.run(task) else {
        panic!(rt; "refused");
    };
    let Ok(adapted) = Adapted::<_, Waker>::new(alloc, run) else {
        panic!(rt; "refused");
    };
    let ended = block_on(&rt, adapted)?;
    assert!(rt; matches!(ended, Ok(Ok(42))));
    Ok(())
}

#[test]
fn the_library_polls_a_handle(rt: HostRuntime) -> io::Result<()> {
    let (alloc, realm) = (rt.alloc(), Realm::leak(rt, rt.alloc())?);
    let executor = Executor::<Double, u64, ContextWaker, HostRuntime>::new(rt, alloc, realm, 4)?;
    let task = executor.spawn(Double(21, true))?;
    assert!(rt; executor.try_tick());
    let Ok(adapted) = Adapted::<_, Waker>::new(alloc, task) else {
        panic!(rt; "refused");
    };
    let ended = block_on(&rt, adapted)?;
    assert!(rt; matches!(ended, Ok(42)));
    Ok(())
}
