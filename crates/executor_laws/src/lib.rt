//! Laws of every execution of the step machine of `executor_model`, of any number of parties and any list of steps: those that
//! stand beside its invariant. A crate of its own so that its proofs are checked beside others.
#![tactic(auto)]

pub mod following;
pub mod laws;
