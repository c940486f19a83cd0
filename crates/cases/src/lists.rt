//! Lists of calls made of seeds, which the step machine and executors play alike.

mod calls;
mod draws;
mod items;
mod list;
mod names;
mod playing;

pub use playing::Lists;
