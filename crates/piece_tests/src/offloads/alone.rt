//! What each call of an `Offload` answers, on one thread.
use crate::bell::Bell;
use crate::offloads::{Double, counted};
use async_task::{Future, Poll};
use offload::{Offload, RunError, Served, TryRunError};
use std::alloc::Global;
use std::io;
use std::sync::atomic::AtomicU64;
use std::sync::{Arc, Wait};
use waiting::oneshot::Canceled;

/// How a try ended. Work that came back has this number.
#[derive(Clone, Copy, PartialEq, Eq)]
enum Tried {
    Full(u64),
    Closed(u64),
    Other,
}

fn tries<R: Wait + Copy + Drop>(
    offload: &Offload<Double, Bell, R>,
    number: u64,
    done: &Arc<AtomicU64>,
) -> Tried {
    let Ok(job) = counted(number, done) else {
        return Tried::Other;
    };
    match offload.try_run(job) {
        Err(TryRunError::Full(job)) => Tried::Full(job.number),
        Err(TryRunError::Closed(job)) => Tried::Closed(job.number),
        _ => Tried::Other,
    }
}

/// A try where it is full, and once it is closed, hands the work back.
fn hands_back<R: Wait + Copy + Drop>(
    offload: &Offload<Double, Bell, R>,
    done: &Arc<AtomicU64>,
) -> bool {
    let full = tries(offload, 2, done) == Tried::Full(2);
    let closes = !offload.is_closed() & offload.close() & !offload.close() & offload.is_closed();
    full & closes & (tries(offload, 3, done) == Tried::Closed(3))
}

/// What was accepted before a close is done.
fn a_try_hands_back<R: Wait + Copy + Drop>(rt: R, alloc: Global) -> io::Result<bool> {
    let done = Arc::new(alloc, AtomicU64::new(0))?;
    let offload = Offload::<Double, Bell, R>::new(rt, alloc, 1)?;
    let bell = Bell::new(alloc, false)?;
    let mut first = offload.try_run(counted(1, &done)?)?;
    let waits = matches!(first.poll(&bell), Poll::Pending);
    let shown = waits & (bell.calls() == 0) & hands_back(&offload, &done);
    let worked = offload.serve_once() == Served::Worked;
    let over = offload.serve_once() == Served::Over;
    let answered = matches!(first.poll(&bell), Poll::Ready(Ok(2)));
    Ok(shown & worked & over & answered & (bell.calls() == 1))
}

/// Work that no thread took is dropped with the last handle, and its answers say so.
fn the_last_handle_cancels<R: Wait + Copy + Drop>(rt: R, alloc: Global) -> io::Result<bool> {
    let done = Arc::new(alloc, AtomicU64::new(0))?;
    let bell = Bell::new(alloc, false)?;
    let offload = Offload::<Double, Bell, R>::new(rt, alloc, 2)?;
    let mut answer = offload.try_run(counted(1, &done)?)?;
    let mut run = offload.run(counted(2, &done)?)?;
    let waits = matches!(run.poll(&bell), Poll::Pending)
        & matches!(answer.poll(&bell), Poll::Pending);
    let other = offload.clone()?;
    drop(offload);
    let waits = waits & matches!(answer.poll(&bell), Poll::Pending);
    drop(other);
    let canceled = matches!(answer.poll(&bell), Poll::Ready(Err(Canceled)))
        & matches!(run.poll(&bell), Poll::Ready(Err(RunError::Canceled)));
    Ok(
        waits
            & canceled
            & matches!(run.poll(&bell), Poll::Pending)
            & (Arc::strong_count(&done) == 1),
    )
}

#[test]
fn work_comes_back(rt: HostRuntime) -> io::Result<()> {
    assert!(rt; a_try_hands_back(rt, rt.alloc())? & the_last_handle_cancels(rt, rt.alloc())?);
    Ok(())
}
