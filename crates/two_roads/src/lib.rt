//! That the step machine, where one party alone is at work, and the executor of one owner are runs of one plain scheduler, and so give
//! the same polls, answers and drops. There is nothing to call: a law is a function without a body, whose contract is the law.
#![tactic(auto)]

pub mod happening;
pub mod names;
pub mod order;
pub mod together;
pub mod turns;
