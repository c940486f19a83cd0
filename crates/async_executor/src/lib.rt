//! An executor: any number of threads run its futures, and it has places for as many as its limit allows. After the Rust crate
//! `async-executor` by Stjepan Glavina and others; no text of it is used.
#![tactic(auto)]

mod body;
mod closing;
mod counts;
mod debug;
mod deeds;
mod due;
mod entry;
mod errors;
mod executor;
mod flag;
mod foreign;
mod handles;
mod leaving;
mod locks;
mod looking;
mod making;
mod marked;
mod names;
mod own_queues;
mod polling;
mod queue;
mod run;
mod runner;
mod sleeping;
mod spawning;
mod state;
mod steps;
mod task_name;
mod tick;
mod ticker;
mod turns;
mod waker_name;
mod walks;

pub use async_task::{FallibleTask, NoMemory, Task};
pub use entry::{Executor, Run, StaticExecutor, Tick};
pub use errors::{RunError, SpawnError};
pub use executor_parts::{Mark, Places, Sleepers};
pub use handles::Handles;
pub use names::{ExCancel, ExFallible, ExRealm, ExRunnable, ExStoredTask, ExTask, ExWaker};
pub use queue::ExQueue;
