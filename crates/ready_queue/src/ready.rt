use crate::names::{QueueDue, QueueScheduled};
use crate::places::Places;
use async_task::{Due, Output, OutsideWaker, Returning, Runtime, Schedule, ScheduleInfo};

/// The schedule value of a queue's tasks: a Runnable that it is given goes into the queue, which has a place for it unless it
/// is closed.
#[derive(Clone, Copy)]
pub struct Ready<R> {
    pub(crate) places: &'static Places,
    pub(crate) rt: R,
}

impl<R: Runtime> Ready<R> {
    /// Appends the Runnable. Where the queue is full or closed its task is closed, and the answer is the one that awaited it,
    /// where that is a task which has to be queued.
    fn push<F: Drop + 'static, T: Output, W: OutsideWaker>(
        &self,
        runnable: QueueScheduled<F, T, W, R>,
    ) -> Option<QueueDue<F, T, W, R>> {
        let realm = runnable.realm();
        match self
            .places
            .queue
            .push(&self.rt, Returning::new(runnable.store()))
        {
            Ok(()) => None,
            Err(refused) => match refused.into_inner().redeem(self.rt, realm) {
                Some(runnable) => runnable.close(),
                None => None,
            },
        }
    }
}

impl<F: Drop + 'static, T: Output, W: OutsideWaker, R: Runtime> Schedule<QueueScheduled<F, T, W, R>>
    for Ready<R> {
    /// Appends the Runnable to the queue. Where that is full or closed, the task is closed, and who awaited it is woken.
    fn schedule(&self, runnable: QueueScheduled<F, T, W, R>, _info: ScheduleInfo) {
        let mut next = Some(runnable);
        for _ in self.rt.forever() {
            next = match next {
                Some(runnable) => match self.push(runnable) {
                    Some(Due { runnable, info: _ }) => Some(runnable),
                    None => None,
                },
                None => return,
            };
        }
        unreachable!()
    }
}
