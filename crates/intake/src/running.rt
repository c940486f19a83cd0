//! A thread that runs an intake's pool.
ghost use Rattle.std.specs.Prelude.{◌≡◌, IfErr};
ghost use Rattle.workers.specs.declared.fault.Fault.TheVariants as fault;

use crate::runs::Runs;
use crate::starts::Starts;
use crate::takes::Takes;
use crate::taking::Taking;
use async_task::{Future, NoMemory};
use workers::Fault;

/// Runs the pool on this thread until the future is ready, and meanwhile starts what is taken. It knows nothing else of pool, taker
/// and starter, since a function that names them in full gets no proof.
pub fn run_beside<K, S, P, Q, W, G>(
    pool: &S,
    seed: u64,
    taker: P,
    starter: Q,
    future: G,
) -> Result<G::Output, Fault>
where
    S: Runs<K>,
    P: Takes<K, Taken = W> + Drop,
    Q: Starts<W> + Drop,
    G: Future<K> + Drop,
    G::Output: Drop,
    ensures { IfErr result (λ why. why ≡ fault.NoMemory) }
{
    match pool.run_until(seed, Taking::new(taker, starter, future)) {
        Ok(Ok(output)) => Ok(output),
        Ok(Err(NoMemory)) => Err(Fault::NoMemory),
        Err(fault) => Err(fault),
    }
}
