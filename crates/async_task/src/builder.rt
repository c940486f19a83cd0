ghost use Rattle.std.specs.Prelude.{◌≡◌, IfOk, IfErr};
ghost use Rattle.async_task.specs.Handles.{task_of};

use crate::bounds::{Output, OutsideWaker};
use crate::cell::{Held, Made, Parts, Realm, Scheduled};
use crate::runnable::Runnable;
use crate::schedule::Schedule;
use crate::task::Task;
use std::sync::Wait;

/// Makes tasks with metadata.
#[derive(Clone, Copy, Debug, PartialEq, Eq, Drop)]
pub struct Builder<M> {
    metadata: M,
}

impl Builder<()> {
    /// Makes a builder of tasks with no metadata.
    pub fn new() -> Self {
        Builder { metadata: () }
    }
}

impl Default for Builder<()> {
    fn default() -> Self {
        Builder::new()
    }
}

impl<M> Builder<M> {
    /// Makes the same builder, of tasks with this metadata.
    pub fn metadata<N>(self, metadata: N) -> Builder<N>
    where
        M: Drop,
        ensures { result.metadata ≡ metadata }
    {
        Builder { metadata }
    }

    /// Makes a task in this realm: the Runnable that begins it, and its handle. For want of memory the future, the schedule value
    /// and the metadata come back.
    #[inline(always)]
    pub fn spawn<F: Drop + 'static, T: Output, S, W: OutsideWaker, R: Wait + Copy + Drop>(
        self,
        rt: R,
        realm: &'static Realm<F, T, S, M, W>,
        future: F,
        schedule: S,
    ) -> Result<(Runnable<F, T, S, M, W, R>, Task<F, T, S, M, W, R>), Parts<F, S, M>>
    where
        S: Schedule<Scheduled<F, T, S, M, W, R>> + Drop + 'static,
        M: Copy + Drop + 'static,
        ensures one_task { IfOk result (λ both. both.0 ≡ task_of both.1) }
        ensures metadata { IfOk result (λ both. both.0.metadata ≡ self.metadata) }
        ensures here { IfOk result (λ both. both.0.identity.realm ≡ realm.now.number) }
        ensures future { IfErr result (λ back. back.future ≡ future) }
        ensures schedule { IfErr result (λ back. back.schedule ≡ schedule) }
        ensures given_back { IfErr result (λ back. back.metadata ≡ self.metadata) }
    {
        let parts = Parts {
            future,
            schedule,
            metadata: self.metadata,
        };
        match Held::new(rt, realm, parts) {
            Ok(made) => {
                let Made {
                    held,
                    token,
                    task,
                    duty,
                } = made;
                let runnable = Runnable {
                    held: held.share(),
                    token,
                };
                Ok((runnable, Task::of(held, task, duty)))
            }
            Err(parts) => Err(parts),
        }
    }
}

/// Makes a task with no metadata in this realm: the Runnable that begins it, and its handle. For want of memory the future and the
/// schedule value come back.
#[inline(always)]
pub fn spawn<F: Drop + 'static, T: Output, S, W: OutsideWaker, R: Wait + Copy + Drop>(
    rt: R,
    realm: &'static Realm<F, T, S, (), W>,
    future: F,
    schedule: S,
) -> Result<(Runnable<F, T, S, (), W, R>, Task<F, T, S, (), W, R>), Parts<F, S, ()>>
where
    S: Schedule<Scheduled<F, T, S, (), W, R>> + Drop + 'static,
    ensures one_task { IfOk result (λ both. both.0 ≡ task_of both.1) }
    ensures here { IfOk result (λ both. both.0.identity.realm ≡ realm.now.number) }
    ensures future { IfErr result (λ back. back.future ≡ future) }
    ensures schedule { IfErr result (λ back. back.schedule ≡ schedule) }
{
    Builder::new().spawn(rt, realm, future, schedule)
}
