//! Work on an executor: futures that are spawned, polled, woken, awaited and dropped, by one thread and by several that run it.
mod awaited;
mod chain;
mod futures;
mod many;
mod names;
mod threads;
mod ticks;
mod workplace;

use crate::executor::chain::await_chain;
use crate::executor::many::{drop_full, spawn_many};
use crate::executor::threads::{run, storm};
use crate::executor::ticks::{ping, ping_marked, spawn_tick};
use crate::work::ExecutorWork;
use crate::{Fault, Timing};
use async_task::{Future, Runtime};
pub use awaited::Awaited;
pub use chain::{Chain, Link};
pub use futures::Yields;
pub use names::{Futures, Handle, Timed, Waker};
use std::alloc::AllocGlobal;
use std::rt::Clock;
use std::thread::Threads;
use workplace::Marks;
pub use workplace::{Crew, Worker, Workplace};

/// Does so many operations on an executor whose tasks lie in this realm. `L` is a future that awaits another, and `P` an
/// executor that threads run.
pub fn time<L, P, R: Runtime + AllocGlobal + Clock + Threads + Sync>(
    work: ExecutorWork,
    rt: &R,
    realm: &'static Futures<R>,
    ops: u64,
) -> Result<Timing, Fault>
where
    L: Chain<R> + Future<Waker<R>, Output = u64> + Drop,
    P: Worker<R> + Sync + Drop,
{
    match work {
        ExecutorWork::SpawnTick => spawn_tick(*rt, rt.alloc(), realm, ops),
        ExecutorWork::Ping => ping(*rt, rt.alloc(), realm, ops),
        ExecutorWork::SpawnMany => spawn_many::<P, R>(*rt, rt.alloc(), realm, ops),
        ExecutorWork::AwaitChain => await_chain::<L, P, R>(*rt, rt.alloc(), realm, ops),
        ExecutorWork::DropFull => drop_full(*rt, rt.alloc(), realm, ops),
        ExecutorWork::Run(workers) => run::<P, R>(rt, realm, workers.count(), ops),
        ExecutorWork::Storm(workers) => storm::<P, R>(
            rt,
            realm,
            workers.count(),
            Marks::Plain,
            ops,
        ),
        ExecutorWork::PingMarked => ping_marked(*rt, rt.alloc(), realm, ops),
        ExecutorWork::StormMarked(workers) => {
            storm::<P, R>(rt, realm, workers.count(), Marks::Mixed, ops)
        }
    }
}
