//! The runs of the step machine, which are numbers: the own queue of each, the list of those queues with its lock, what each
//! run has counted, and where it is among the sleepers; and ticks and runs together, with the sleepers of both.
mod at;
mod counts;
mod list;
mod lock;
mod own;
mod run;
mod runs;
mod ticks_and_runs;

pub use list::Found;
pub use run::Stage;
pub use runs::Runs;
pub use ticks_and_runs::TicksAndRuns;
