//! Work on an executor of one thread, and on one of one owner: what `workloads` does on `async_executor`, by its sizes and futures.

mod awaited;
mod chain;
mod many;
mod names;
mod owner;
mod runs;
mod ticks;

use std::alloc::AllocGlobal;
use std::random::RandomSource;
use std::rt::Clock;
use std::sync::Wait;
use workloads::work::LocalWork;
use workloads::{Fault, Timing};

/// Does so many operations.
pub fn time<R>(work: LocalWork, rt: &R, ops: u64) -> Result<Timing, Fault>
where
    R: AllocGlobal + Clock + RandomSource + Wait + Copy + Drop,
{
    match work {
        LocalWork::SpawnTick => ticks::spawn_tick(*rt, rt.alloc(), ops),
        LocalWork::Ping => ticks::ping(*rt, rt.alloc(), ops),
        LocalWork::SpawnMany => many::spawn_many(*rt, rt.alloc(), ops),
        LocalWork::AwaitChain => chain::await_chain(*rt, rt.alloc(), ops),
        LocalWork::DropFull => many::drop_full(*rt, rt.alloc(), ops),
        LocalWork::Run => runs::run(*rt, rt.alloc(), ops),
        LocalWork::Storm => runs::storm(*rt, rt.alloc(), ops),
        LocalWork::PingSolo => owner::ping(rt, rt.alloc(), ops),
    }
}
