//! Tests of the queues and of what waits, against what `concurrent_queue`, `waiting`, `timer` and `blocking` give their users. A
//! crate of its own so that they are proved beside these, and these only once.
#![tactic(auto)]

#[cfg(test)]
mod blocks;
#[cfg(test)]
mod ended;
#[cfg(test)]
mod parties;
#[cfg(test)]
mod sections;
#[cfg(test)]
mod sleeps;
#[cfg(test)]
mod texts;
#[cfg(test)]
mod threads;
#[cfg(test)]
mod turns;
#[cfg(test)]
mod waits;
#[cfg(test)]
mod words;
