//! Scripts on the step machine: from the text of a script to the text of what its run shows.
#![tactic(auto)]

mod answers;
mod moment;
pub mod play;
mod print;

pub use answers::answer;
pub use moment::{Moment, Outcome};
pub use print::push_outcome;
