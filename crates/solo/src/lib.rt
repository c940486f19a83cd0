//! An executor of one owner, by `&mut`, which never runs code of its user: what has to be polled, dropped or called it hands out.
#![tactic(auto)]

mod cells;
mod closing;
mod line;
mod lines;
mod names;
mod owed;
mod own_queues;
mod runs;
mod solo;
mod steals;
mod table;
mod ticks;
mod turns;

pub use executor_parts::Mark;
pub use names::{Kind, SoloWaker, Task};
pub use owed::{Found, Lent, Owed, SpawnError, Spawned, Taken, Told};
pub use runs::{Leaving, Missed, Ran, RunLeft, Runner};
pub use solo::Solo;
pub use task_moves::local_task::{Back, Polled};
pub use ticks::{Dropped, Look, Ticked, Ticker};
