//! Each call of tasks without an executor, and of timers, that asks for memory.
#![tactic(auto)]

mod tasks;
mod timers;

pub use tasks::{Close, TaskRealm, try_tasks};
pub use timers::try_timers;
