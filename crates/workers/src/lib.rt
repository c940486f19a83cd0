//! Threads that run one executor together, each until a future of its own is ready; and one error for all that may refuse.
#![tactic(auto)]

mod fault;
mod from;
mod from_places;
mod from_queues;
mod from_waits;
mod join_all;
mod running;
mod threads;
mod until;

pub use fault::Fault;
pub use join_all::JoinAll;
pub use running::{answer, complete, complete_from, run_until, run_until_beside};
pub use threads::run_workers;
