//! Plays scripts of whole calls, in the language of `taskrun sim`, on executors of one thread, and gives the text of what happens.

mod desk;
mod handle;
mod keeper;
mod playing;

pub use playing::play_local;
