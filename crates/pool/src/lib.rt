//! Executors whose futures may give anything: each sends what it has to give, so a program has one waker.
#![tactic(auto)]

mod answer;
mod answers;
mod handle;
mod making;
mod place;
mod pool;
mod sending;
mod through;
mod waker;

pub use answer::Answer;
pub use answers::Answers;
pub use handle::Handle;
pub use making::answering;
pub use place::{Place, spawn_on};
pub use pool::{Pool, PoolOf};
pub use sending::Answering;
pub use waker::Waker;
