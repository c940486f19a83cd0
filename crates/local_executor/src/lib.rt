//! Executors of one thread: their futures and outputs stay on it, and their wakers may be called from any.
#![tactic(auto)]

mod body;
mod copying;
mod debug;
mod ending;
mod entry;
mod errors;
mod foreign;
mod futures;
mod handle;
mod lent;
mod link;
mod locks;
mod making;
mod names;
mod out;
mod output;
mod run;
mod running;
mod sections;
mod spawning;
mod starts;
mod store;
mod ticking;

pub use async_task::{NoMemory, TaskError};
pub use entry::{
    LocalCancel, LocalExWaker, LocalExecutor, LocalFallible, LocalHandle, LocalRun, LocalTick,
    LocalWaker, StaticLocalExecutor,
};
pub use errors::{LocalError, RunError};
pub use solo::{Mark, SpawnError};
