//! Each call of executors that threads share that asks for memory.
#![tactic(auto)]

mod executors;

pub use executors::{Ground, LIMIT, TestExecutor, TestRealm, TestWaker, owned, try_executors};
