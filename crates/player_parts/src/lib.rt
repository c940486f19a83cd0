//! What players of scripts of whole calls have in common, whatever executor they play on: what is shown, the commands on handles and
//! wakers, and things by name.
#![tactic(auto)]

mod answer;
mod asking;
mod commands;
mod desk;
mod errors;
mod future;
mod handle;
mod handles;
mod outside;
mod own;
mod player;
mod shelf;
mod sitting;
mod stage;

pub use answer::{Answer, answer_of_cancel, answer_of_task, answer_of_tick, show_end};
pub use commands::{Stop, play_closed, play_on, read_whole};
pub use desk::{Desk, Plan, Refused};
pub use errors::PlayError;
pub use future::{KeptOf, Scripted, future_of};
pub use handle::{Await, Held, Hold};
pub use handles::{Handles, SharedHandles};
pub use outside::{Bell, Gift};
pub use own::Own;
pub use player::Player;
pub use shelf::{Keep, SharedShelf, Shelf};
pub use stage::{Shared, Stage};
