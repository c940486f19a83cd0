//! One future, its handle and its wakers.
#![tactic(auto)]

mod bounds;
mod builder;
mod cancel;
mod cell;
mod debug;
mod errors;
mod fallible;
mod lent;
mod look;
mod poll;
mod polling;
mod realm;
mod runnable;
mod running;
mod schedule;
mod stored_task;
mod task;
mod wake;
mod waker;

pub use bounds::{Output, OutsideWaker, Runtime};
pub use builder::{Builder, spawn};
pub use cancel::Cancel;
pub use cell::{
    Cell, Detached, Due, GoesBack, Identity, Parts, Realm, Returning, Scheduled, StoredRunnable,
    StoredWaker, close_returned,
};
pub use errors::{NoMemory, RealmError};
pub use fallible::FallibleTask;
pub use lent::LentWaker;
pub use look::{Look, TooManyReferences};
pub use poll::{Future, Poll};
pub use realm::{Cells, Returns};
pub use runnable::{Closing, Pause, RunEnd, Runnable, Started};
pub use running::Running;
pub use schedule::{Schedule, ScheduleInfo, Shared, WithInfo};
pub use stored_task::StoredTask;
pub use task::{Task, TaskError};
pub use task_moves::{Back, LocalTask, laws, local_task, moves};
pub use wake::{Nobody, Wake};
pub use waker::{Awaiter, TaskWaker};
