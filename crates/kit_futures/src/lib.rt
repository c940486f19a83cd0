//! A future of the library's `futures`, awaited on an executor of these crates: one thread receives the wakes of all of them.
#![tactic(auto)]

mod bridge;
mod compat;
mod errors;
pub mod parts;
mod place;
mod pollable;
mod table;

pub use bridge::Bridge;
pub use compat::Compat;
pub use errors::{AwaitError, EnterError};
pub use parts::BridgeClosed;
