//! Rows of calls that ask for memory: what one loop does with a row, the futures and the waker of rows, the rows of calls on an
//! executor of any kind, and what a program that makes them says.
#![tactic(auto)]

mod kinds;
mod memory;
mod parts;
mod polled;
mod program;
mod report;
mod rows;

pub use kinds::{LONG, Many, ROWS, Row, Runs, Turn, Turns, play};
pub use memory::{bell, own};
pub use parts::{Bell, Drops, Job, shown};
pub use polled::{Polled, of_fallible, of_task, of_tick, poll_ended};
pub use program::{spare_requests, spend, tell};
pub use report::{Call, Place, Refused, Report, Wrong};
pub use rows::{Ended, Look, Trial, try_each};
