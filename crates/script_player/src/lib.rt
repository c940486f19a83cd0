//! Plays scripts of whole calls, in the language of `taskrun sim`, on executors of one thread and on `solo`,
//! each by the same player, which takes whatever has the calls of an executor.
#![tactic(auto)]

mod one_owner;
mod one_thread;

pub use one_owner::play_solo;
pub use one_thread::play_local;
