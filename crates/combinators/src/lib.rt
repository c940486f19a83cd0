//! Several futures at once, for any waker: all of three or four, all or the first error, the first of three, and many in the order
//! in which they are done. There is also a receive with a time limit.
#![tactic(auto)]

mod all_of_four;
mod all_of_three;
mod first_of_three;
mod making;
mod part;
mod timed_recv;
mod tried_three;
mod tried_two;
mod unordered;

pub use all_of_four::Join4;
pub use all_of_three::Join3;
pub use first_of_three::{Either3, Select3};
pub use making::{join3, join4, recv_timeout, select3, try_join, try_join3};
pub use timed_recv::RecvTimeout;
pub use tried_three::TryJoin3;
pub use tried_two::TryJoin;
pub use unordered::{FuturesUnordered, Next};
pub use waiting::channel::RecvTimeoutError;

#[cfg(test)]
mod tests;
