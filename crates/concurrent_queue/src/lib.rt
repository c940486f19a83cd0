//! Closable queues: a port of the Rust crate `concurrent-queue`, with contracts.
#![tactic(auto)]

pub mod bounded;
mod concurrent;
pub mod glimpse;
mod places;
mod remains;
pub mod seated;
pub mod single;
mod try_iter;
mod unbounded;

pub use concurrent::ConcurrentQueue;
pub use queue_steps::{
    Exclusive, ExclusiveIter, ForcePushError, NoMemory, PopError, PushError, steps,
};
pub use remains::Remains;
pub use try_iter::TryIter;
