//! That the step machine can be made to act as the owner of an executor calls: each call that its party may begin, and each end of user
//! code, is an act of it, however it is told. There is nothing to call: a law is a function without a body, whose contract is the law.
#![tactic(auto)]

pub mod calls;
pub mod commands;
pub mod reading;
