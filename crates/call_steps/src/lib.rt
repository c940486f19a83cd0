//! What a call on the executor does next, by what it sees: the steps of the machine's calls, one after the other, by whatever
//! names futures, ticks and runs go.
#![tactic(auto)]

mod asked;
mod call;
mod names;
mod part;
mod reply;
mod saw;
mod seeing;
mod step;

pub use asked::Asked;
pub use call::{Call, Last};
pub use names::{Look, RunPoll, Section, Sleeping, Source, Stage, Steal, Then, TickOrRun, Waker};
pub use part::Part;
pub use reply::Reply;
pub use saw::{Saw, Searcher};
pub use step::{
    CallStep, ClosingStep, HandleStep, ListStep, QueueStep, RunStep, SleeperStep, StealStep,
    TableStep, TickStep, UserStep, WakerStep,
};
