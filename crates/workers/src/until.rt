//! A run that has one error.
use async_executor::{ExWaker, Run, RunError};
use async_task::{Future, NoMemory, Output, Poll, Runtime};
use blocking::ThreadWaker;

/// A run that is polled until it is ready. Polled once more it is pending, as it has no future any more. So the only error that it
/// can have is want of memory.
#[derive(Drop)]
pub(crate) struct Until<'a, F: Drop, T: Output, R: Runtime, G: Drop> {
    run: Run<'a, F, T, ThreadWaker, R, G>,
}

impl<'a, F: Drop, T: Output, R: Runtime, G: Drop> Until<'a, F, T, R, G> {
    pub(crate) fn of(run: Run<'a, F, T, ThreadWaker, R, G>) -> Self {
        Until { run }
    }
}

impl<F, T: Output, R: Runtime, G> Future<ExWaker<T, ThreadWaker, R>> for Until<'_, F, T, R, G>
where
    F: Future<ExWaker<T, ThreadWaker, R>, Output = T> + Drop,
    G: Future<ExWaker<T, ThreadWaker, R>> + Drop,
{
    type Output = Result<G::Output, NoMemory>;

    fn poll(&mut self, waker: &ExWaker<T, ThreadWaker, R>) -> Poll<Result<G::Output, NoMemory>> {
        match self.run.poll(waker) {
            Poll::Ready(Ok(output)) => Poll::Ready(Ok(output)),
            Poll::Ready(Err(RunError::NoMemory)) => Poll::Ready(Err(NoMemory)),
            Poll::Ready(Err(RunError::Finished)) | Poll::Pending => Poll::Pending,
        }
    }
}
