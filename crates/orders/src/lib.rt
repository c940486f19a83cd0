//! Tests of one's own futures in the orders that seeds draw, and in all orders of a small program. They run on `Solo`, which polls,
//! drops and calls nothing itself.
#![tactic(auto)]

mod asking;
mod beside;
mod calls;
mod chooser;
mod clock;
mod every;
mod failure;
mod first;
mod offering;
mod offers;
mod order;
mod path;
mod played;
mod playing;
mod polling;
mod replay;
mod scheduler;
mod script;
mod search;
mod shortening;

pub use asking::Asking;
pub use beside::{Alone, Beside};
pub use calls::{Call, Came, Extra, Made};
pub use clock::{FakeClock, FakeTime, Hands};
pub use every::{Every, Limit, every_failure};
pub use failure::{End, Failure};
pub use first::{MOST_CALLS, first_failure, first_failure_among};
pub use order::{Order, Output};
pub use replay::fails_again;
