use crate::executor::names::{Futures, Handle, Waker};
use async_executor::ExStoredTask;
use async_task::{Future, Poll, Returning, Runtime};
use std::alloc::Global;
use std::collections::VecDeque;

/// A future that awaits tasks in the order in which it was given them, and gives the sum of their outputs. A task that is
/// closed adds nothing.
#[derive(Drop)]
pub struct Awaited<R: Runtime> {
    rt: R,
    realm: &'static Futures<R>,
    tasks: VecDeque<Returning<ExStoredTask>>,
    sum: u64,
}

impl<R: Runtime> Awaited<R> {
    /// Awaits no task yet.
    pub fn new(rt: R, alloc: Global, realm: &'static Futures<R>) -> Self {
        Awaited {
            rt,
            realm,
            tasks: VecDeque::new(alloc),
            sum: 0,
        }
    }

    /// One more task. Where there is no memory for it its handle goes.
    pub fn push(&mut self, task: Handle<R>) {
        if let Err(refused) = self.tasks.push_back(Returning::new(task.store())) {
            if let Some(task) = refused.value.redeem(self.rt, self.realm) {
                drop(task);
            }
        }
    }
}

impl<R: Runtime> Future<Waker<R>> for Awaited<R> {
    type Output = u64;

    fn poll(&mut self, waker: &Waker<R>) -> Poll<u64> {
        for _ in self.rt.forever() {
            let Some(stored) = self.tasks.pop_front() else {
                return Poll::Ready(self.sum);
            };
            let Some(mut task) = stored.redeem(self.rt, self.realm) else {
                continue;
            };
            match task.poll(waker) {
                Poll::Ready(Ok(output)) => self.sum = self.sum.wrapping_add(output),
                Poll::Ready(Err(_)) => {}
                Poll::Pending => {
                    // The room that it had is still there.
                    let _ = self.tasks.push_front(Returning::new(task.store()));
                    return Poll::Pending;
                }
            }
        }
        unreachable!()
    }
}
