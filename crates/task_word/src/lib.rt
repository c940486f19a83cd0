//! A task's state as one word of a table, with its future, its output and its awaiter in slots beside it.
#![tactic(auto)]

mod cell;
mod layout;
pub mod rule;
mod slot;
pub mod steps;
pub mod tokens;

pub use cell::Cell;
pub use layout::{Word, decode, encode};
pub use slot::{put_awaiter, put_future, put_output, take_awaiter, take_future, take_output};
pub use steps::{Board, Pass};
