//! Tests of `kit_futures`, and of runs and handles in `adapted`. A crate of its own so that they are proved beside these.
#![tactic(auto)]

#[cfg(test)]
mod bell;
#[cfg(test)]
mod rows;
#[cfg(test)]
mod runs;
#[cfg(test)]
mod threads;
