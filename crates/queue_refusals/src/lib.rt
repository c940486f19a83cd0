//! Each call of queues, and of what waits, that asks for memory.
#![tactic(auto)]

mod queues;
mod waits;

pub use queues::try_queues;
pub use waits::try_waiting;
