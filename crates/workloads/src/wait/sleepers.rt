//! Many who sleep by one timer.
use crate::{Fault, Timing};
use async_task::{Future, Nobody, Runtime};
use std::alloc::Global;
use std::collections::VecDeque;
use std::rt::Clock;
use std::time::{Duration, Instant};
use timer::{Sleep, Timer};

/// Drops the one who has slept longest, and another goes to sleep, for 1,000 to 1,499 seconds.
pub fn leave<R: Runtime + Clock>(
    rt: R,
    alloc: Global,
    crowd: u64,
    ops: u64,
) -> Result<Timing, Fault> {
    let timer = match Timer::<Nobody, R>::new(rt, alloc, crowd as usize) {
        Ok(timer) => timer,
        Err(_) => return Err(Fault::NoMemory),
    };
    let mut sleepers = VecDeque::new(alloc);
    for number in 0..crowd {
        sleepers.push_back(sleeper(&timer, number)?)?;
    }
    let mut moved = 0u64;
    let start = Instant::now(&rt)?;
    for number in 0..ops {
        moved = moved.wrapping_add(u64::from(sleepers.pop_front().is_some()));
        sleepers.push_back(sleeper(&timer, number)?)?;
    }
    Timing::since(&rt, start, moved)
}

/// One who sleeps, and has left its waker.
fn sleeper<R: Runtime + Clock>(
    timer: &Timer<Nobody, R>,
    number: u64,
) -> Result<Sleep<Nobody, R>, Fault> {
    match timer.sleep(Duration::from_secs(1_000 + number.wrapping_mul(389) % 500)) {
        Ok(mut sleep) => {
            let _pending = sleep.poll(&Nobody);
            Ok(sleep)
        }
        Err(_) => Err(Fault::Refused),
    }
}
