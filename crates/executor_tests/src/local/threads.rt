//! Wakers of an executor of one thread are called on other threads.
use crate::local::door::{House, Visitor, new_door};
use async_task::{Future, Nobody, Poll, Runtime, Wake};
use local_executor::{LocalExWaker, TaskError};
use std::alloc::Global;
use std::process::Abort;
use std::random::RandomSource;
use std::rc::Rc;
use std::sync::atomic::{AtomicBool, Ordering};
use std::sync::{Arc, Wait};
use std::thread::{self, Threads};

/// Ticks until all was said to be over and nothing is queued, within so many turns.
fn ticks_until<R: Wait + Copy + Drop>(executor: &House<R>, is_over: &AtomicBool) -> bool {
    for _ in 0..1_000_000_000u64 {
        // Where all wakes came before this look, none is still queued once it finds nothing.
        let was_over = is_over.load(Ordering::SeqCst);
        if !executor.try_tick() & was_over {
            return true;
        }
    }
    false
}

/// Whether an executor polls its future again where another thread calls the waker 10,000 times meanwhile.
fn ticks_while_it_is_called<R: Runtime + Abort + RandomSource + Threads + Send + Sync>(
    rt: R,
    alloc: Global,
) -> bool {
    let executor = House::new(rt, alloc, 1).expect(&rt, "an executor");
    let (door, other) = new_door::<R>(&rt, alloc);
    let Ok(handle) = executor.spawn(Visitor(other)) else {
        return false;
    };
    let has_ticked = executor.try_tick();
    let is_over = Arc::new(alloc, AtomicBool::new(false)).expect(&rt, "memory");
    let told = Arc::try_clone(&is_over).expect(&rt, "memory");
    let waker = door.take();
    let wakes = move || {
        if let Some(waker) = &waker {
            for _ in 0..10_000 {
                waker.wake_by_ref();
            }
        }
        told.store(true, Ordering::SeqCst);
    };
    let child = thread::spawn(&rt, wakes).expect(&rt, "a thread");
    let is_well = has_ticked & ticks_until(&executor, &is_over);
    child.join(&rt);
    let is_polled = (door.polls.get() > 1) & !executor.try_tick();
    drop(handle);
    is_well & is_polled & executor.try_tick() & executor.is_empty()
}

#[test]
fn a_waker_is_called_10_000_times_while_its_executor_ticks(rt: HostRuntime) {
    assert!(rt; ticks_while_it_is_called(rt, rt.alloc()));
}

/// Whether a waker that outlives its executor elsewhere lets go what it holds.
fn outlives_its_executor<R: Runtime + Abort + RandomSource + Threads + Send + Sync>(
    rt: R,
    alloc: Global,
) -> bool {
    let executor = House::new(rt, alloc, 1).expect(&rt, "an executor");
    let (door, other) = new_door::<R>(&rt, alloc);
    let Ok(mut handle) = executor.spawn(Visitor(other)) else {
        return false;
    };
    let has_ticked = executor.try_tick();
    let waker = door.take();
    drop(executor);
    let wakes = move || {
        if let Some(waker) = waker {
            waker.wake_by_ref();
            waker.wake();
        }
    };
    thread::spawn(&rt, wakes).expect(&rt, "a thread").join(&rt);
    let is_closed = handle.poll(&LocalExWaker::Outside(Nobody));
    let is_let_go = Rc::strong_count(&door) == 1;
    has_ticked & is_let_go & (is_closed == Poll::Ready(Err(TaskError::TaskClosed)))
}

#[test]
fn a_waker_outlives_its_executor_elsewhere(rt: HostRuntime) {
    assert!(rt; outlives_its_executor(rt, rt.alloc()));
}
