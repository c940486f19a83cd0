//! Tests of `pool`, by its public calls: what becomes of a future there. A crate of its own so that they are proved beside the pool, and
//! that only once.
#![tactic(auto)]

#[cfg(test)]
mod counted;
#[cfg(test)]
mod fates;
#[cfg(test)]
mod kinds;
