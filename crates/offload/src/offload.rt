ghost use Rattle.offload.specs.Putting.{IsRefused};
ghost use Rattle.offload.specs.declared.errors.RunError.TheVariants as run;
ghost use Rattle.offload.specs.declared.run.Stage.TheVariants as stage;
ghost use Rattle.std.specs.Arc.{arc_value};
ghost use Rattle.std.specs.Prelude.{◌≡◌, ◌<◌, IfErr, IfOk, Some};

use crate::answer::Answer;
use crate::errors::{RunError, TryRunError};
use crate::piece::Piece;
use crate::run::Run;
use crate::serving::{Served, work_once, work_until_over};
use crate::shared::Shared;
use crate::work::Work;
use async_task::{NoMemory, Wake};
use std::alloc::Global;
use std::sync::{Arc, Wait};
use waiting::channel::TrySendError;

/// Accepts work that blocks. Threads that serve do it, in the order in which it came. It is one handle; `clone` makes others of
/// the same place. After `unblock` of `blocking` and `spawn_blocking` of `tokio`, with threads that the program starts. The
/// futures that await its outputs have wakers of the type `K`.
///
/// Its places are for work that no thread has taken yet. Wakers are called, work is done and values are dropped with no lock held.
/// Threads serve by `serve`, until `close`. A caller that has work awaits its output:
///
/// ```
/// let Ok(run) = self.offload.run(job) else {
///     return None;
/// };
/// block_on::<ThreadWaker, _, _>(&self.rt, self.alloc, run).ok()
/// ```
#[derive(Drop)]
pub struct Offload<J: Work + Drop, K: Wake + Drop, R: Wait + Copy + Drop> {
    shared: Arc<Shared<J, K, R>>,
    rt: R,
    alloc: Global,
}

impl<J: Work + Drop, K: Wake + Drop, R: Wait + Copy + Drop> Offload<J, K, R> {
    /// Makes an offload with this many places for work that no thread has taken yet. It takes memory for all of them.
    pub fn new(rt: R, alloc: Global, places: usize) -> Result<Self, NoMemory>
        requires { 0 < places }
        ensures { IfOk result (λ offload. (arc_value (arc_value offload.shared).entrance.shared).line.queue.capacity ≡ Some places) }
    {
        let shared = match Shared::new(rt, alloc, places) {
            Ok(shared) => shared,
            Err(error) => return Err(error),
        };
        match Arc::new(alloc, shared) {
            Ok(shared) => Ok(Offload { shared, rt, alloc }),
            Err(_) => Err(NoMemory),
        }
    }

    /// Makes one more handle, to hand work in or to serve; refused where there are 2^63. It takes no memory.
    pub fn clone(&self) -> Result<Self, NoMemory>
        ensures same { IfOk result (λ offload. arc_value offload.shared ≡ arc_value self.now.shared) }
    {
        match Arc::try_clone(&self.shared) {
            Ok(shared) => Ok(Offload {
                shared,
                rt: self.rt,
                alloc: self.alloc,
            }),
            Err(_) => Err(NoMemory),
        }
    }

    /// Hands work in where a place is free, and notifies a thread. It takes memory for the output, after it has found a free
    /// place. Work that isn't accepted comes back, and isn't done.
    pub fn try_run(&self, job: J) -> Result<Answer<J::Output, K, R>, TryRunError<J>>
        ensures { IsRefused job result }
    {
        if self.shared.is_closed() {
            return Err(TryRunError::Closed(job));
        }
        if self.shared.is_full() {
            return Err(TryRunError::Full(job));
        }
        let (piece, receiver) = match Piece::new(self.rt, self.alloc, job) {
            Ok(made) => made,
            Err(job) => return Err(TryRunError::NoMemory(job)),
        };
        match self.shared.try_put(piece) {
            Ok(came) => Ok(Answer::new(receiver, self.shared.notify(came))),
            Err(TrySendError::Full(piece)) => Err(TryRunError::Full(piece.into_job())),
            Err(TrySendError::Closed(piece)) => Err(TryRunError::Closed(piece.into_job())),
            Err(TrySendError::NoMemory(piece)) => Err(TryRunError::NoMemory(piece.into_job())),
        }
    }

    /// Makes a future that hands work in, waits for a place and then for the output. It joins the waiters at its first poll. It
    /// takes memory for the output; where there is none, or there are 2^63 handles, the work comes back.
    pub fn run(&self, job: J) -> Result<Run<J, K, R>, RunError<J>>
        ensures refused { IfErr result (λ error. error ≡ run.NoMemory job) }
        ensures waits { IfOk result (λ made. (w : _) × (made.stage ≡ stage.Waits w) × (w.piece.job ≡ job) × (arc_value w.offload.shared ≡ arc_value self.now.shared)) }
    {
        let (Ok(offload), Ok(entrance)) = (self.clone(), self.shared.entrance()) else {
            return Err(RunError::NoMemory(job));
        };
        match Piece::new(self.rt, self.alloc, job) {
            Ok((piece, receiver)) => Ok(Run::new(offload, entrance, piece, receiver)),
            Err(job) => Err(RunError::NoMemory(job)),
        }
    }

    /// Does accepted work on this thread, until it is closed and all work was taken. Several threads may serve at a time. It takes
    /// no memory.
    pub fn serve(&self) {
        let _over = work_until_over(&self.rt, &*self.shared);
    }

    /// Does the oldest accepted work that no thread has taken, where there is some, and waits for none. It takes no memory.
    pub fn serve_once(&self) -> Served {
        work_once(&*self.shared)
    }

    /// Closes it: no more work is accepted. Accepted work is done, and then the threads that serve end. Callers that wait for a
    /// place are woken. Answers whether it was open. It takes no memory.
    pub fn close(&self) -> bool {
        self.shared.close()
    }

    /// Whether it is closed. It stays closed. It takes no memory.
    pub fn is_closed(&self) -> bool {
        self.shared.is_closed()
    }

    pub(crate) fn shared(&self) -> &Shared<J, K, R>
        ensures { result.now ≡ arc_value self.now.shared }
    {
        &*self.shared
    }
}
