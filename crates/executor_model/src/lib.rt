//! What happens in an executor, as data: the calls of its parties, what they are answered, and the events
//! of which a trace is a list. What is said of a trace stands in `specs/`, in files of the same names.
#![tactic(auto)]

mod call;
pub mod call_laws;
mod event;
mod kind;
pub mod laws;
mod op;
mod step;
pub mod trace_laws;

pub use call::{By, Call, Reply};
pub use event::{Answer, Event};
pub use executor_parts::Mark;
pub use kind::Kind;
pub use op::{
    Awaiter, ClosingOp, HandleOp, Hold, ListOp, Look, Op, Polled, QueueOp, RunOp, RunPoll, Section,
    SleeperOp, Sleeping, Source, Steal, StealOp, TableOp, Then, TickOp, TickOrRun, UserOp, Waker,
    WakerOp,
};
pub use step::{Hint, Step, StepError, UserEnd};
