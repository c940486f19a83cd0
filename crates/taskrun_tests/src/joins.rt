//! What the drop of a join leaves of the task that it awaits.
use async_executor::{ExRealm, Executor};
use async_task::{Awaiter, Future, Nobody, Poll, Runtime, Wake};
use std::alloc::Global;
use std::test::Fail;
use workers::JoinAll;

/// Is never ready.
#[derive(Drop)]
struct Never;

impl<K: Wake> Future<K> for Never {
    type Output = u64;

    fn poll(&mut self, _waker: &K) -> Poll<u64> {
        Poll::Pending
    }
}

fn futures_of(alloc: Global, count: usize) -> Option<Vec<Never>> {
    let mut futures = Vec::new(alloc);
    for _ in 0..count {
        futures.push(Never).ok()?;
    }
    Some(futures)
}

/// Whether the executor is empty once a join of so many that never are ready was polled so often and dropped, and they were run.
fn empties<R: Runtime>(
    rt: R,
    alloc: Global,
    realm: &'static ExRealm<u64, Nobody, R>,
    count: usize,
    polls: u64,
) -> bool {
    let Ok(executor) = Executor::new(rt, alloc, realm, count.max(1)) else {
        return false;
    };
    let Some(futures) = futures_of(alloc, count) else {
        return false;
    };
    let (handles, _) = executor.spawn_many(&mut futures.into_iter());
    let mut all = JoinAll::new(rt, alloc, realm, handles);
    let mut is_pending = true;
    for _ in 0..polls {
        is_pending &= matches!(all.poll(&Awaiter::Outside(Nobody)), Poll::Pending);
    }
    drop(all);
    for _ in 0..count {
        executor.try_tick();
    }
    is_pending & executor.is_empty()
}

/// Of one and of several, polled before or not.
fn each_empties<R: Runtime>(rt: R, alloc: Global, realm: &'static ExRealm<u64, Nobody, R>) -> bool {
    let mut is_well = true;
    for (count, polls) in [(1, 0), (1, 1), (3, 1), (3, 2)].iter() {
        is_well &= empties(rt, alloc, realm, *count, *polls);
    }
    is_well
}

#[test]
fn the_drop_of_a_join_cancels_what_it_awaits(rt: HostRuntime) -> Result<(), Fail> {
    let realm = ExRealm::<u64, Nobody, HostRuntime>::leak(rt, rt.alloc())?;
    assert!(rt; each_empties(rt, rt.alloc(), realm));
    Ok(())
}
