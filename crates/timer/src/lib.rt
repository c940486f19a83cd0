//! Sleeping: a timer, whose thread wakes sleepers once their time has come, for any waker.
#![tactic(auto)]

mod agenda;
mod deadlines;
mod errors;
mod interval;
mod making;
pub mod parts;
mod shared;
mod sleep;
mod timed;
mod timer;
mod told;
mod tree;

pub use errors::{SleepError, Stopped, TimeoutError, TimerError};
pub use interval::Interval;
pub use making::timeout;
pub use sleep::Sleep;
pub use timed::Timeout;
pub use timer::{Timer, Turned};
