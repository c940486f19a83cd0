//! What `bench` times: the workloads by name with their usual sizes, what a run took, what a run that doesn't end well ends
//! on, and the work on queues, tasks, executors and jobs. Each function of these does so many operations, and answers what they
//! took and the sum of what it moved; what is worked on is made before the clock starts.
#![tactic(auto)]

pub mod base;
pub mod executor;
mod fault;
pub mod job;
mod queue;
mod sharing;
pub mod task;
mod timing;
pub mod wait;
pub mod work;
mod workload;

pub use fault::Fault;
pub use queue::{on_queue_of_one, on_shared_queue};
pub use sharing::{round, share};
pub use timing::Timing;
pub use workload::{Workload, all};
