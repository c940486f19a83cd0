use async_task::{Future, Runtime};
use pool::{Pool, Waker};
use workers::Fault;

/// Runs on a thread what it has, as far as who takes in has to know. `K` are the wakers of the thread's own future.
pub trait Runs<K> {
    ghost use Rattle.std.specs.Prelude.{◌≡◌, IfErr};
    ghost use Rattle.workers.specs.declared.fault.Fault.TheVariants as fault;

    /// Runs it until the future is ready.
    fn run_until<G>(&self, seed: u64, future: G) -> Result<G::Output, Fault>
    where
        G: Future<K> + Drop,
        G::Output: Drop,
        ensures { IfErr result (λ why. why ≡ fault.NoMemory) };
}

impl<F, R: Runtime> Runs<Waker<R>> for Pool<F, R>
where
    F: Future<Waker<R>, Output = ()> + Drop,
{
    fn run_until<G>(&self, seed: u64, future: G) -> Result<G::Output, Fault>
    where
        G: Future<Waker<R>> + Drop,
        G::Output: Drop,
    {
        self.run_from(future, seed)
    }
}
