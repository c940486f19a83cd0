//! The parts under the locks of a reactor, for a reactor of your own.
mod attempt;
mod side;
mod sources;

pub use attempt::{Attempt, Ready, Stale, Transfer};
pub use side::{Checked, Looked, Over, Owed, Parked, Readiness, Side, WouldBlock};
pub use sources::{Key, Refused, Sources};
