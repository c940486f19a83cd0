//! Tests of what the program `taskrun` stands on: the step machine, the language of its scripts, threads that work together, jobs on
//! them, and what it does over readers and writers, against what `executor_core`, `script`, `workers`, `jobs` and `commands` give
//! their users. A crate of its own so that these are proved once.
#![tactic(auto)]

#[cfg(test)]
mod caught;
#[cfg(test)]
mod crew;
#[cfg(test)]
mod gates;
#[cfg(test)]
mod joins;
#[cfg(test)]
mod program;
#[cfg(test)]
mod rows;
#[cfg(test)]
mod scripts;
#[cfg(test)]
mod values;
