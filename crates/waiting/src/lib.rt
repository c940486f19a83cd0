//! What futures wait for, with any waker: events, semaphores, channels, one value for one receiver, both of two futures, and the
//! first of two. There are also futures that are ready at once or never.
#![tactic(auto)]

mod both;
mod called;
pub mod channel;
mod entries;
mod event;
mod first;
mod guarded;
mod kinds;
mod listed;
mod listener;
mod making;
mod now;
pub mod oneshot;
pub mod parts;
mod permits;
pub mod semaphore;
mod slot;
mod waiters;

pub use both::{Awaited, Join};
pub use event::Event;
pub use first::{Either, Select};
pub use listener::Listener;
pub use making::{join, pending, ready, select, yield_now};
pub use now::{Never, Ready, YieldNow};
