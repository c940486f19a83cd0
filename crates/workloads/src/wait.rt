//! Work on what waits: one of many who listen, and one of many who sleep.
mod listeners;
mod sleepers;

use crate::work::WaitWork;
use crate::{Fault, Timing};
use async_task::Runtime;
use std::alloc::AllocGlobal;
use std::rt::Clock;

/// Does so many operations.
pub fn time<R: Runtime + AllocGlobal + Clock>(
    work: WaitWork,
    rt: &R,
    ops: u64,
) -> Result<Timing, Fault> {
    match work {
        WaitWork::Tell(crowd) => listeners::tell(*rt, rt.alloc(), crowd.count(), ops),
        WaitWork::Leave(crowd) => listeners::leave(*rt, rt.alloc(), crowd.count(), ops),
        WaitWork::DropSleep(crowd) => sleepers::leave(*rt, rt.alloc(), crowd.count(), ops),
    }
}
