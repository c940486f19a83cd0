//! Plays scripts of whole calls, in the language of `taskrun sim`, on running executors, and gives the text of what happens.
#![tactic(auto)]

mod commands;
mod desk;
mod future;
mod handle;
mod outside;
mod playing;
mod seat;
mod shelf;
mod theatre;

pub use outside::ScriptRealm;
pub use player_parts::{Bell, Gift};
pub use theatre::{ExecutorPlayer, Plays, Theatre};
