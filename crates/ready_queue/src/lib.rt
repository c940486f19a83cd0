//! A queue of tasks that are to be run: the schedule value of tasks of `async_task`, with a realm of its own for them.
#![tactic(auto)]

mod accepted;
mod errors;
mod names;
mod places;
mod queue;
mod ready;
mod rooms;

pub use accepted::Accepted;
pub use errors::SpawnError;
pub use names::{QueueCancel, QueueFallible, QueueRealm, QueueRunnable, QueueTask, QueueWaker};
pub use places::Places;
pub use queue::ReadyQueue;
pub use ready::Ready;
