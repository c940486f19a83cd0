//! What the step machine of `executor_model` has in common with the plain scheduler, where one
//! party alone is at work. There is nothing to call: a law is a function without a body, whose
//! contract is the law.
#![tactic(auto)]

pub mod lone;
pub mod nested;
pub mod roads;
pub mod tasks;
