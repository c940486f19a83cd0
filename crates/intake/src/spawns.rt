ghost use Rattle.async_executor.specs.Errors.{refused};
ghost use Rattle.std.specs.Prelude.{◌≡◌, IfErr};

use async_executor::SpawnError;
use async_task::{Future, Runtime};
use pool::{Place, Pool, Waker};

/// That a future was spawned: none is made elsewhere, so who has one has spawned.
#[derive(Drop)]
pub struct Spawned {
    own: (),
}

/// Takes futures `F` whose handles nobody keeps, as far as an intake has to know.
pub trait Spawns<F> {
    ghost use Rattle.async_executor.specs.Errors.{refused};
    ghost use Rattle.std.specs.Prelude.{◌≡◌, IfErr};

    /// Spawns a future, and detaches its task. A refused future comes back.
    fn spawn_alone(&self, future: F) -> Result<Spawned, SpawnError<F>>
        ensures { IfErr result (λ error. refused error ≡ future) };
}

impl<F, R: Runtime> Spawns<F> for Pool<F, R>
where
    F: Future<Waker<R>, Output = ()> + Drop,
{
    fn spawn_alone(&self, future: F) -> Result<Spawned, SpawnError<F>> {
        match self.spawn_here(future) {
            Ok(task) => {
                task.detach();
                Ok(Spawned { own: () })
            }
            Err(error) => Err(error),
        }
    }
}
