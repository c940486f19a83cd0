//! The parts under a bridge's lock, and the tokens of its calls.
mod carried;
mod seats;
mod turn;

pub use carried::Carried;
pub use seats::{BridgeClosed, Left, Owed, Refused, Seat, Seats, Taken, Ticket, Waited, Woken};
pub use turn::{Ended, Parked, Turn};
