//! The examples of the doc comments, and what orders don't show, on one thread.
use crate::bell::Bell;
use async_lock::{Lock, Mutex, TryLockError};
use async_task::{Future, Nobody, Poll, Wake};
use std::alloc::Global;
use std::io;
use std::sync::Wait;

/// The number that a poll gave, which is given back.
fn given<R: Wait + Copy + Drop, K: Wake + Drop>(
    lock: &mut Lock<u64, K, R>,
    waker: &K,
) -> Option<u64> {
    match lock.poll(waker) {
        Poll::Ready(Ok(guard)) => Some(*guard.get()),
        _ => None,
    }
}

fn the_example<R: Wait + Copy + Drop>(rt: R, alloc: Global) -> io::Result<bool> {
    let mutex = Mutex::<u64, Nobody, R>::new(rt, alloc, 1)?;
    let mut first = mutex.try_lock()?;
    let mut second = mutex.lock()?;
    let waits = given(&mut second, &Nobody).is_none();
    *first.get_mut() = 2;
    drop(first);
    let locked = matches!(mutex.try_lock(), Err(TryLockError::Locked));
    let has = given(&mut second, &Nobody) == Some(2);
    Ok(waits & locked & has & mutex.try_lock().is_ok())
}

/// The last handle alone takes the value out. A guard is a handle, and so is who waits.
fn the_last_handle_takes_the_value<R: Wait + Copy + Drop>(
    rt: R,
    alloc: Global,
) -> io::Result<bool> {
    let mutex = Mutex::<u64, Nobody, R>::new(rt, alloc, 7)?;
    let same = mutex.clone()?;
    let other = mutex.into_inner().is_none();
    let held = same.try_lock()?;
    let last = same.clone()?;
    let guard = same.into_inner().is_none();
    drop(held);
    Ok(other & guard & (last.into_inner() == Some(7)))
}

/// Who can't leave its waker calls it. Who gave its value is pending, and calls nobody.
fn who_has_given_is_pending<R: Wait + Copy + Drop>(rt: R, alloc: Global) -> io::Result<bool> {
    let bell = Bell::new(alloc, true)?;
    let mutex = Mutex::<u64, Bell, R>::new(rt, alloc, 7)?;
    let guard = mutex.try_lock()?;
    let mut lock = mutex.lock()?;
    let waits = given(&mut lock, &bell).is_none() & (bell.calls() == 1);
    drop(guard);
    let has = given(&mut lock, &bell) == Some(7);
    Ok(waits & has & given(&mut lock, &bell).is_none() & (bell.calls() == 1))
}

#[test]
fn a_value_comes_back(rt: HostRuntime) -> io::Result<()> {
    let shown = the_example(rt, rt.alloc())? & the_last_handle_takes_the_value(rt, rt.alloc())?;
    assert!(rt; shown & who_has_given_is_pending(rt, rt.alloc())?);
    Ok(())
}
