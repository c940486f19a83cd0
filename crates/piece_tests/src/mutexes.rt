//! A value that one has at a time, by public calls: in each order on one thread, beside a model, and between threads.
mod alone;
mod orders;

use crate::scene::{Scene, played};
use async_lock::Mutex;
use blocking::{ThreadWaker, block_on};
use std::alloc::Global;
use std::sync::Wait;
use std::{io, thread};

/// Threads that add to one number.
#[derive(Drop)]
struct Adding<R: Wait + Copy + Drop> {
    rt: R,
    alloc: Global,
    mutex: Mutex<u64, ThreadWaker, R>,
}

impl<R: Wait + Copy + Drop> Adding<R> {
    /// Adds one, while others may come between. Whether it did.
    fn adds(&self) -> bool {
        let Ok(lock) = self.mutex.lock() else {
            return false;
        };
        let Ok(Ok(guard)) = block_on::<ThreadWaker, _, _>(&self.rt, self.alloc, lock) else {
            return false;
        };
        let mut guard = guard;
        let before = *guard.get();
        thread::yield_now();
        *guard.get_mut() = before.saturating_add(1);
        true
    }

    fn into_number(self) -> Option<u64> {
        let Adding {
            rt: _,
            alloc: _,
            mutex,
        } = self;
        mutex.into_inner()
    }
}

impl<R: Wait + Copy + Drop> Scene for Adding<R> {
    fn act(&self, _part: usize) -> u64 {
        let mut added = 0u64;
        for _ in 0..200 {
            added = added.saturating_add(self.adds() as u64);
        }
        added
    }
}

/// Four threads take a number in turn, 200 times each, and add one to it.
#[test]
fn one_has_the_value_at_a_time(rt: HostRuntime) -> io::Result<()> {
    let alloc = rt.alloc();
    let mutex = Mutex::new(rt, alloc, 0)?;
    let adding = Adding { rt, alloc, mutex };
    assert!(rt; played(&rt, alloc, &adding, 4) == 800);
    assert!(rt; adding.into_number() == Some(800));
    Ok(())
}
