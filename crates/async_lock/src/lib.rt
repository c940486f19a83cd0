//! What futures share and wait for: a mutex, a barrier, and the newest of values.
#![tactic(auto)]

mod barrier;
mod barrier_wait;
mod errors;
mod gathering;
mod guarded;
mod lock;
mod mutex;
mod mutex_guard;
pub mod parts;
mod room;
mod round;
pub mod watch;

pub use barrier::{Barrier, BarrierWaitResult};
pub use barrier_wait::BarrierWait;
pub use errors::{NoMemoryFor, TryLockError};
pub use lock::Lock;
pub use mutex::Mutex;
pub use mutex_guard::MutexGuard;
