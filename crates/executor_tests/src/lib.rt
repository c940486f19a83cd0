//! Tests of executors, by what `async_executor` gives its users, and in `local` `local_executor`. A crate of its own so that
//! these are proved beside it, and only once.
#![tactic(auto)]

#[cfg(test)]
mod borrowed;
mod local;
#[cfg(test)]
mod locks;
#[cfg(test)]
mod many;
#[cfg(test)]
mod parts;
#[cfg(test)]
mod stage;
#[cfg(test)]
mod texts;
#[cfg(test)]
mod theatre;
#[cfg(test)]
mod threads;

pub use local::{Never, Ready, send_last_waker, send_waker, send_waker_of_static};
