//! Plays scripts of calls on tasks of `async_task`, or on tasks of one owner, and gives the text of what happens.

mod answer;
mod command;
mod counts;
mod error;
mod handle;
mod handles;
mod kept;
mod local;
mod parser;
mod player;
mod playing;
mod runs;
mod scene;
mod stage;
mod wakers;

pub use error::PlayError;
pub use handle::Handle;
pub use kept::{Keeps, Kept};
pub use local::play_local;
pub use playing::{PlaysTasks, TaskPlayer};
pub use runs::OpenRun;
pub use stage::Tasks;
