//! Each call of the step machine, and each kind of step, that asks for memory.
#![tactic(auto)]

mod machines;

pub use machines::try_machines;
