use crate::brought::{Brought, Log};
use crate::desk::{Awaits, Desk};
use async_task::{Future, NoMemory, Poll};
use std::alloc::Global;
use std::sync::Wait;

/// A worker's future: it begins a job, awaits its handle, and begins the next. Where no job is left it is ready, with the jobs
/// that came back to it. Where memory was lacking it is ready with that.
#[derive(Drop)]
pub struct Worker<D: Desk + Drop, R> {
    rt: R,
    log: Log<D>,
}

impl<D: Desk + Drop, R> Worker<D, R> {
    /// Makes a worker at this desk.
    pub fn at(rt: R, alloc: Global, desk: D) -> Self {
        Worker {
            rt,
            log: Log::new(alloc, desk),
        }
    }
}

impl<K, D: Awaits<K> + Drop, R: Wait> Future<K> for Worker<D, R> {
    type Output = Result<Brought<D>, NoMemory>;

    fn poll(&mut self, waker: &K) -> Poll<Result<Brought<D>, NoMemory>> {
        for _ in self.rt.forever() {
            match self.log.bring(waker) {
                Poll::Pending => return Poll::Pending,
                Poll::Ready(Err(NoMemory)) => return Poll::Ready(Err(NoMemory)),
                Poll::Ready(Ok(())) => {}
            }
            match self.log.begin() {
                Ok(true) => {}
                Ok(false) => return Poll::Ready(Ok(self.log.end())),
                Err(NoMemory) => return Poll::Ready(Err(NoMemory)),
            }
        }
        unreachable!()
    }
}
