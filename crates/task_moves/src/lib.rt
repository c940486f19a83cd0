//! The table of the moves of a task, the task of one owner, and laws over lists of moves: the part of the crate
//! `async_task` that shares nothing between threads. `async_task` has all of it under its own name too.
#![tactic(auto)]

pub mod laws;
pub mod local_task;
pub mod moves;
mod schedule_info;

pub use local_task::{Back, LocalTask};
pub use schedule_info::ScheduleInfo;
