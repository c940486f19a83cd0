//! Plays scripts of whole calls, in the language of `taskrun sim`, on an executor of one owner, and gives the text of what happens.

mod desk;
mod handle;
mod keeper;
mod link;
mod playing;
mod runs;
mod store;
mod ticks;
mod waker;

pub use playing::play_solo;
