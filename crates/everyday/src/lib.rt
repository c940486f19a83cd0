//! Programs of a first week without an executor, a file each to copy. Each is a test, as those of `first_week` are.
#![tactic(auto)]

#[cfg(test)]
mod seat;
#[cfg(test)]
mod squares;
