//! Programs of a first week with `pool`, a file each to copy. Each is a test, as its runtime value is one that may wait and start
//! threads in `main` and in tests alone: a program has `fn main` there.
#![tactic(auto)]

#[cfg(test)]
mod jobs;
#[cfg(test)]
mod sum;
