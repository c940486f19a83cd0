//! The part under a timer's lock, for a driver of your own: `Deadlines`, whose calls are one section each.
pub use crate::deadlines::{Deadlines, Entry, Looked, Next, Place, Refused};
