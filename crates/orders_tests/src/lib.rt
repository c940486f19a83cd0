//! Tests of `orders`: bugs that were planted in small programs are found by seeds and among all orders, and in their mended forms
//! nothing is. A crate of its own, so that `orders` is proved once.
#![tactic(auto)]

#[cfg(test)]
mod acts;
#[cfg(test)]
mod finds;
#[cfg(test)]
mod player;
#[cfg(test)]
mod program;
#[cfg(test)]
mod rows;
#[cfg(test)]
mod waits;
#[cfg(test)]
mod world;
