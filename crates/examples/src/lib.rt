//! Programs to start from, a file each to copy. Each is a test, as its runtime value is one that may wait and start threads
//! in `main` and in tests alone: a program has `fn main` there.
#![tactic(auto)]

#[cfg(test)]
mod actor;
#[cfg(test)]
mod cancelled;
#[cfg(test)]
mod first_task;
#[cfg(test)]
mod hello;
#[cfg(test)]
mod never_ended;
#[cfg(test)]
mod one_owner;
#[cfg(test)]
mod one_thread;
#[cfg(test)]
mod own_executor;
#[cfg(test)]
mod periodic;
#[cfg(test)]
mod pipeline;
#[cfg(test)]
mod queue;
#[cfg(test)]
mod replies;
#[cfg(test)]
mod sleepers;
#[cfg(test)]
mod thread_pool;
#[cfg(test)]
mod timed;
#[cfg(test)]
mod two_kinds;
#[cfg(test)]
mod two_threads;
