//! Tests of `offload` and `async_lock`, by their public calls. A crate of its own so that they are proved beside these, and these only
//! once.
#![tactic(auto)]

#[cfg(test)]
mod barriers;
#[cfg(test)]
mod bell;
#[cfg(test)]
mod mutexes;
#[cfg(test)]
mod offloads;
#[cfg(test)]
mod scene;
#[cfg(test)]
mod turns;
#[cfg(test)]
mod watches;
