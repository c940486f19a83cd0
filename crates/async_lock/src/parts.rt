//! The parts under the locks, and what their sections answer. Contracts name them. Tests call them one section at a time.
pub use crate::gathering::{Came, Gathering};
pub use crate::room::{Found, GaveUp, Held, Place, Promise, Room};
pub use crate::round::{Ended, Passed, Round, Seat, Seen, WokeAll};
pub use crate::watch::latest::{Latest, Noticed};
