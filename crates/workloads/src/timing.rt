use crate::fault::Fault;
use std::rt::Clock;
use std::time::{Duration, Instant};

/// What one run of a workload took, and the sum of what it moved.
#[derive(Clone, Copy)]
pub struct Timing {
    pub took: Duration,
    pub moved: u64,
}

impl Timing {
    /// The time from `start` until now.
    pub fn since<R: Clock>(rt: &R, start: Instant, moved: u64) -> Result<Timing, Fault> {
        Ok(Timing {
            took: start.elapsed(rt)?,
            moved,
        })
    }
}
