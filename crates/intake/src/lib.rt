//! A pool whose tasks spawn: a task asks for a future, and a thread that runs the pool makes it and spawns it, once a permit is free.
#![tactic(auto)]

mod acceptor;
mod admitted;
mod asked;
mod called;
mod intake;
mod makes;
mod opening;
mod rest;
mod running;
mod runs;
mod spawner;
mod spawns;
mod starter;
mod starts;
mod taker;
mod takes;
mod taking;

pub use acceptor::Acceptor;
pub use admitted::Admitted;
pub use intake::Intake;
pub use makes::Makes;
pub use opening::{Room, spawning};
pub use runs::Runs;
pub use spawner::Spawner;
pub use spawns::{Spawned, Spawns};
