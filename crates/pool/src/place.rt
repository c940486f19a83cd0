//! Where futures are spawned that send their outputs.
ghost use Rattle.std.specs.Prelude.{◌≡◌, IfErr};
ghost use Rattle.async_executor.specs.Errors.{refused};
ghost use Rattle.pool.specs.Answering.{HandsBack};

use crate::answer::Answer;
use crate::making::answering;
use crate::sending::Answering;
use async_executor::SpawnError;
use async_task::{Future, Output, Runtime, Wake};
use std::alloc::Global;

/// Takes futures `F`: a `Pool`, or an executor of a program's own.
pub trait Place<F: Drop> {
    /// The handle of a task.
    type Task: Drop;

    /// Takes a future. A future that is refused comes back.
    fn spawn_here(&self, future: F) -> Result<Self::Task, SpawnError<F>>
        ensures { IfErr result (λ error. refused error ≡ future) };
}

/// Spawns a future of any output at a place, and returns what is awaited for that output. `F` is what lies there: an `Answering`,
/// or an enum whose variants hold `Answering`s of several kinds, with a `From` for each.
///
/// `NoMemory` where there is no memory for the place of the output or for the task. `Full` where as many futures as the limit are
/// not dropped yet. The future comes back in the form in which it would lie there: `into_inner` of an `Answering` takes it out.
pub fn spawn_on<P, F: Drop, A, X: Output, K: Wake + Drop, R: Runtime>(
    rt: R,
    alloc: Global,
    place: &P,
    future: A,
) -> Result<Answer<X, P::Task, K, R>, SpawnError<F>>
where
    P: Place<F>,
    A: Future<K, Output = X> + Drop,
    F: From<Answering<A, X, K, R>>,
    ensures { IfErr result (λ error. HandsBack F.from_gives future (refused error)) }
{
    match answering(rt, alloc, future) {
        Ok((future, from)) => match place.spawn_here(F::from(future)) {
            Ok(task) => Ok(Answer::new(from, task)),
            Err(error) => Err(error),
        },
        Err(future) => Err(SpawnError::NoMemory(F::from(Answering::unanswered(future)))),
    }
}
