//! The core of the executor, as one value that takes one step at a time: every interleaving of its
//! parties is a list of steps.
#![tactic(auto)]

mod act;
mod begin;
mod carry;
mod found;
pub mod headline;
pub mod laws;
mod machine;
mod part;
mod possible;
mod queues;
mod runs;
mod search;
mod store;
mod table;
mod ticks;
mod uses;

pub use executor_model::{Kind, Mark};
pub use executor_parts::{EntryPlace, Places, SpawnRefused, Vacancy};
pub use machine::Machine;
