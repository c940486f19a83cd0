//! Laws over lists of steps of any number of parties, on the slot, the ring and the chain of `queue_steps`: each
//! takes its changes from `queue_steps::steps`. A crate of its own so that neither waits for the other's checks.
#![tactic(auto)]

pub mod laws;
