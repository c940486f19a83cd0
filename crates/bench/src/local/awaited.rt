//! Futures that await tasks.
use crate::local::names::{Handle, Key};
use async_task::{Future, Nobody, Poll};
use local_executor::LocalExWaker;
use std::alloc::Global;
use std::collections::VecDeque;
use std::sync::Wait;

/// A future that awaits tasks in the order in which it was given them, and gives the sum of their outputs. A task that is closed
/// adds nothing.
#[derive(Drop)]
pub struct Awaited<R: Wait + Copy + Drop> {
    rt: R,
    tasks: VecDeque<Handle<R>>,
    sum: u64,
}

impl<R: Wait + Copy + Drop> Awaited<R> {
    /// Awaits no task yet.
    pub fn new(rt: R, alloc: Global) -> Self {
        Awaited {
            rt,
            tasks: VecDeque::new(alloc),
            sum: 0,
        }
    }

    /// One more task. Where there is no memory for it its handle goes.
    pub fn push(&mut self, task: Handle<R>) {
        drop(self.tasks.push_back(task));
    }

    /// The sum, once each task has ended.
    pub fn into_sum(self) -> Option<u64> {
        let mut awaited = self;
        match awaited.poll(&LocalExWaker::Outside(Nobody)) {
            Poll::Ready(sum) => Some(sum),
            Poll::Pending => None,
        }
    }
}

impl<R: Wait + Copy + Drop> Future<Key<R>> for Awaited<R> {
    type Output = u64;

    fn poll(&mut self, waker: &Key<R>) -> Poll<u64> {
        for _ in self.rt.forever() {
            let Some(task) = self.tasks.pop_front() else {
                return Poll::Ready(self.sum);
            };
            let mut task = task;
            match task.poll(waker) {
                Poll::Ready(Ok(output)) => self.sum = self.sum.wrapping_add(output),
                Poll::Ready(Err(_)) => {}
                Poll::Pending => {
                    // The room that it had is still there.
                    drop(self.tasks.push_front(task));
                    return Poll::Pending;
                }
            }
        }
        unreachable!()
    }
}
