//! Plays scripts of calls on queues, and of calls on tasks, and gives the text of what happens.
#![tactic(auto)]

mod queues;
mod tasks;

pub use queues::{ParseError, play_exclusive, play_shared};
pub use tasks::{
    Handle, Keeps, Kept, OpenRun, PlayError, PlaysTasks, TaskPlayer, Tasks, play_local,
};
