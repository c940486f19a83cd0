//! Laws of the plain scheduler, over lists of calls from a new one on: what holds of whatever is a run of it. There is nothing to
//! call: a law is a function without a body, whose contract is the law.
#![tactic(auto)]

pub mod coming;
pub mod order;
pub mod searches;
