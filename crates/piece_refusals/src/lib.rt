//! Each call of `async_lock`, `combinators`, `offload` and `reactor` that asks for memory: what a refusal of it answers. The call is
//! made once more then. Calls that take none stand between them.
#![tactic(auto)]

mod futures;
mod locks;
mod offloads;
mod sources;

pub use futures::try_futures;
pub use locks::try_locks;
pub use offloads::try_offloads;
pub use sources::try_sources;
