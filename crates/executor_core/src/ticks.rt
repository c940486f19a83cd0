//! The ticks of the step machine, which are numbers, and the sleepers among whom ticks and runs sleep: `Sleepers` of
//! `executor_parts`, the flag beside them, and the room in which nobody sleeps.
mod flagged_sleepers;
mod ticker;
mod ticks;

pub use flagged_sleepers::{FellAsleep, FlaggedSleepers};
pub use ticker::Ticker;
pub use ticks::Ticks;
