//! A barrier, by public calls: in each order on one thread, beside a model, and between threads.
mod orders;

use crate::scene::{Scene, played};
use async_lock::Barrier;
use blocking::{ThreadWaker, block_on};
use std::alloc::Global;
use std::io;
use std::sync::Wait;
use std::sync::atomic::AtomicU64;
use std::sync::atomic::Ordering::SeqCst;

/// Threads that meet, round after round.
#[derive(Drop)]
struct Meeting<R: Wait + Copy + Drop> {
    rt: R,
    alloc: Global,
    barrier: Barrier<ThreadWaker, R>,
    /// How often one came, in all.
    came: AtomicU64,
}

impl<R: Wait + Copy + Drop> Meeting<R> {
    /// Meets the others in this round. Whether it led; none where it went on before all three had come.
    fn meets(&self, round: u64) -> Option<bool> {
        self.came.fetch_add(1, SeqCst);
        let Ok(wait) = self.barrier.wait() else {
            return None;
        };
        match block_on::<ThreadWaker, _, _>(&self.rt, self.alloc, wait) {
            Ok(Ok(passed)) if self.came.load(SeqCst) >= round.saturating_mul(3) => {
                Some(passed.is_leader())
            }
            _ => None,
        }
    }
}

impl<R: Wait + Copy + Drop> Scene for Meeting<R> {
    /// How often it led.
    fn act(&self, _part: usize) -> u64 {
        let mut led = 0u64;
        for round in 1..=200 {
            match self.meets(round) {
                Some(has_led) => led = led.saturating_add(has_led as u64),
                None => return 0,
            }
        }
        led
    }
}

/// Three threads meet 200 times. None goes on before all have come, and one leads each time.
#[test]
fn none_goes_on_before_all_have_come(rt: HostRuntime) -> io::Result<()> {
    let meeting = Meeting {
        rt,
        alloc: rt.alloc(),
        barrier: Barrier::new(rt, rt.alloc(), 3)?,
        came: AtomicU64::new(0),
    };
    assert!(rt; played(&rt, rt.alloc(), &meeting, 3) == 200);
    Ok(())
}
