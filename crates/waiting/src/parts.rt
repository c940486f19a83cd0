//! The parts under the locks and in the queues of these primitives, and what their sections answer. Contracts name them. Tests
//! call them one section at a time.
pub use crate::channel::line::{Came, Ended, Freed, Line, Nothing, Sent, Shut};
pub use crate::permits::{Closing, Found, GaveUp, Held, NoMore, Permits, Promise, Refused};
pub use crate::slot::{Over, Received, Slot};
pub use crate::waiters::{Call, Left, Listening, Looked, Waiters, WasTold};
