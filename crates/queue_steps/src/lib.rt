//! The closable queue of one owner, and the pure steps of slot, ring and chain from which each form of the queue takes its
//! changes: the part of the crate `concurrent_queue` that shares nothing between threads. `concurrent_queue` has all of
//! it under its own name too.
#![tactic(auto)]

mod bounded;
mod errors;
mod exclusive;
mod exclusive_iter;
mod representation;
mod single;
pub mod steps;
mod unbounded;

pub use errors::{ForcePushError, NoMemory, PopError, PushError};
pub use exclusive::Exclusive;
pub use exclusive_iter::ExclusiveIter;
pub use representation::Representation;
pub use unbounded::Unbounded;
