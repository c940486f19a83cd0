//! Names for the types of an executor of one owner as an executor of one thread uses them.
use crate::locks::Guarded;
use crate::output::Output;
use executor_parts::{EntryPlace, Places};
use solo::Solo;
use std::alloc::Global;
use std::sync::Arc;

/// The state under the lock. Its futures are places in a store on the executor's thread, and its outputs only say that they are
/// there. So it moves between threads where `W` does.
pub type Tasks<W> = Solo<EntryPlace, (), W>;

/// What an executor, its handles and its wakers share.
pub type Shared<W> = Arc<Guarded<Tasks<W>>, Global>;

/// The futures that aren't dropped, in the order of acceptance, each with the place of its output.
pub type Futures<F, T> = Places<F, Output<T>>;
