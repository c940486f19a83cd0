//! The plain scheduler: an executor as its user has to know it, with one list of due futures and no queue, flag or sleeper's number.
#![tactic(auto)]
