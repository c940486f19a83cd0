//! Each call of the executor of one owner, and of executors of one thread, that asks for memory.
#![tactic(auto)]

mod locals;
mod solos;

pub use locals::try_locals;
pub use solos::try_solos;
