//! Tests of executors of one thread, by what these give their users.

#[cfg(test)]
mod alone;
#[cfg(test)]
mod door;
#[cfg(test)]
mod midway;
mod moving;
#[cfg(test)]
mod texts;
#[cfg(test)]
mod threads;

pub use moving::{Never, Ready, send_last_waker, send_waker, send_waker_of_static};
