//! Laws of what may be begun, and of what calls do, over every list of steps of the step machine of `executor_model`, by any
//! number of parties. There is nothing to call: a law is a function without a body, whose contract is the law.
#![tactic(auto)]

pub mod all;
pub mod begins;
pub mod drops;
pub mod leaks;
pub mod polls;
pub mod shown;
pub mod steps;
pub mod wakers;
