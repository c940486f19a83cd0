//! The steps of calls, in the groups of the machine's operations.
mod handle;
mod run;
mod table;
mod tick;
mod user;

use crate::reply::Reply;
pub use handle::{HandleStep, WakerStep};
pub use run::{ListStep, RunStep, StealStep};
pub use table::{ClosingStep, QueueStep, TableStep};
use task_moves::moves::Move;
pub use tick::{SleeperStep, TickStep};
pub use user::UserStep;

/// One thing that a call has still to do. `F` names futures, and `T` ticks and runs.
pub enum CallStep<F, T> {
    /// A move of this future's task that stands alone, and no part of a poll of the handle.
    Move(Move, F),
    Table(TableStep<F>),
    Queue(QueueStep<F>),
    User(UserStep<F, T>),
    Waker(WakerStep<F>),
    Handle(HandleStep<F>),
    Sleeper(SleeperStep<F, T>),
    Tick(TickStep<F, T>),
    List(ListStep<F, T>),
    Steal(StealStep<F, T>),
    Run(RunStep<F, T>),
    Closing(ClosingStep),
    /// The call ends, with this answer.
    End(Reply),
}
