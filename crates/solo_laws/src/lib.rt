//! Laws over lists of calls of an executor of one owner, from its making on: each takes what a call does from `solo`. A crate of
//! its own so that neither waits for the other's checks. That calls of it lead where the plain scheduler's do; and that calls of it
//! take the steps that `call_steps` says.
#![tactic(auto)]

pub mod answers;
pub mod choosing;
pub mod counting;
pub mod laws;
pub mod lying;
pub mod making;
pub mod roads;
pub mod running;
pub mod turns;
