//! Readiness: futures that wait until a way of a source is ready, and a thread that is notified of it, over a poller that
//! the program brings.
#![tactic(auto)]

mod errors;
mod guard;
mod lane;
pub mod parts;
mod poller;
mod polling;
mod reactor;
mod source;
mod table;

pub use errors::{ReactorClosed, SourceError};
pub use guard::ReadyGuard;
pub use parts::WouldBlock;
pub use poller::{Heard, Poller, Way};
pub use reactor::Reactor;
pub use source::Source;
