//! The parts that a running executor locks, and the step machine has too: the table of futures and the list of sleepers. Each
//! public method that changes one of them is one section of whoever locks it, and knows nothing of threads.
#![tactic(auto)]

pub mod laws;
mod mark;
mod order;
mod places;
mod sleepers;

pub use mark::Mark;
pub use places::{EntryPlace, Places, SpawnRefused, Vacancy};
pub use sleepers::{Again, Room, Sleeper, Sleepers, Slept, Unreserved, WokenUp, exchange_flag};
