//! Tests of `reactor`, with pollers of the tests' own. A crate of its own so that they are proved beside it, and it only once.
#![tactic(auto)]

#[cfg(test)]
mod bell;
#[cfg(test)]
mod between;
#[cfg(test)]
mod board;
#[cfg(test)]
mod game;
#[cfg(test)]
mod orders;
#[cfg(test)]
mod polls;
#[cfg(test)]
mod rows;
#[cfg(test)]
mod script;
#[cfg(test)]
mod stage;
#[cfg(test)]
mod tasks;
#[cfg(test)]
mod threads;
#[cfg(test)]
mod turns;
#[cfg(test)]
mod words;
