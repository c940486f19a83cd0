//! What the program does: `jobs` does a list of jobs on worker threads, and `sim` plays a script of calls. Each reads its input
//! whole, and writes last.
#![tactic(auto)]

mod fault;
mod input;
pub mod job_list;
mod output;
pub mod program;
pub mod sim;
mod words;

pub use fault::Fault;
