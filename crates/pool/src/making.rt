//! How a future that sends its output is made.
ghost use Rattle.std.specs.Arc.{arc_value};
ghost use Rattle.std.specs.Prelude.{◌≡◌, IfErr, IfOk, IsSomeAnd};

use crate::sending::Answering;
use async_task::{NoMemory, Output, Runtime, Wake};
use std::alloc::Global;
use waiting::oneshot::{self, Receiver};

/// Makes a future that sends the output of this one, and the receiver of the output. It takes memory for the place of the output;
/// where there is none the future comes back.
///
/// A place takes it, and an `Answer` is made of the receiver and the task. `spawn_on` does both.
pub fn answering<F: Drop, X: Output, K: Wake + Drop, R: Runtime>(
    rt: R,
    alloc: Global,
    future: F,
) -> Result<(Answering<F, X, K, R>, Receiver<X, K, R>), F>
    ensures back { IfErr result (λ back. back ≡ future) }
    ensures future { IfOk result (λ made. made.0.future ≡ future) }
    ensures joined { IfOk result (λ made. IsSomeAnd made.0.to (λ to. arc_value to.slot ≡ arc_value made.1.slot)) }
{
    match oneshot::channel(rt, alloc) {
        Ok((to, from)) => Ok((Answering::to(future, to), from)),
        Err(NoMemory) => Err(future),
    }
}
