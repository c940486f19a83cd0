ghost use Rattle.std.specs.Arc.{arc_value};
ghost use Rattle.std.specs.Prelude.{◌≡◌, IfErr, IfOk};
ghost use Rattle.async_executor.specs.Errors.{refused};
ghost use Rattle.workers.specs.declared.fault.Fault.TheVariants as fault;

use crate::admitted::Admitted;
use crate::asked::Taken;
use crate::makes::Makes;
use crate::running::run_beside;
use crate::runs::Runs;
use crate::spawns::Spawns;
use crate::starter::Starter;
use crate::taker::Taker;
use async_executor::SpawnError;
use async_task::{Future, NoMemory, Wake};
use pool::Place;
use std::sync::Wait;
use waiting::channel::{Receiver, TryRecvError};
use waiting::semaphore::{Semaphore, TryAcquireError};
use workers::Fault;

/// A pool `S` that spawns what its spawners ask for, by descriptors `D`. Each future has a permit: while all are held no descriptor is
/// taken, so those who ask wait, with wakers `A`. `K` are the wakers of the pool's futures.
///
/// Its drop drops the pool, and then the descriptors that weren't taken; from then on who asks is answered `Closed`.
pub struct Intake<D: Drop, A: Wake + Drop, K: Wake + Drop, S: Drop, R: Wait + Copy + Drop> {
    pool: S,
    asked: Receiver<D, A, K, R>,
    permits: Semaphore<K, R>,
}

impl<D: Drop, A: Wake + Drop, K: Wake + Drop, S: Drop, R: Wait + Copy + Drop> Drop
    for Intake<D, A, K, S, R> {
    fn drop(self) {
        let Intake {
            pool,
            asked,
            permits,
        } = self;
        drop(pool);
        drop(asked);
        drop(permits);
    }
}

impl<D: Drop, A: Wake + Drop, K: Wake + Drop, S: Drop, R: Wait + Copy + Drop> Intake<
    D,
    A,
    K,
    S,
    R,
> {
    pub(crate) fn new(pool: S, asked: Receiver<D, A, K, R>, permits: Semaphore<K, R>) -> Self
        ensures { result.asked ≡ asked }
    {
        Intake {
            pool,
            asked,
            permits,
        }
    }

    /// Gives a future a permit, for `spawn` of this intake. `Full` where none is free, also while a worker looks for a descriptor,
    /// and `NoMemory` where there are too many permits: the future comes back. It takes no memory.
    pub fn admit<J: Drop>(&self, future: J) -> Result<Admitted<J, K, R>, SpawnError<J>>
        ensures admitted { IfOk result (λ admitted. admitted.future ≡ future) }
        ensures here { IfOk result (λ admitted. arc_value admitted.permit.semaphore.permits ≡ arc_value self.now.permits.permits) }
        ensures back { IfErr result (λ error. refused error ≡ future) }
    {
        match self.permits.try_acquire() {
            Ok(permit) => Ok(Admitted::new(future, permit)),
            Err(TryAcquireError::NoMemory) => Err(SpawnError::NoMemory(future)),
            Err(_) => Err(SpawnError::Full(future)),
        }
    }

    /// Spawns a future that `admit` gave its permit, and answers its handle. It takes memory; a refused future comes back.
    pub fn spawn<F: Drop>(&self, admitted: F) -> Result<S::Task, SpawnError<F>>
    where
        S: Place<F>,
        ensures { IfErr result (λ error. refused error ≡ admitted) }
    {
        self.pool.spawn_here(admitted)
    }

    /// Runs the pool on this thread until the future is ready, as `run_from` of a pool, and meanwhile spawns what is asked for.
    /// Several threads may do so, each with another seed. That the last spawner is gone, or the intake closed, doesn't end it. It takes
    /// memory, and the one fault is `NoMemory`: a future that was to be spawned just then is dropped.
    ///
    /// A descriptor is taken only with a permit for it, and its future is spawned in the same poll. So what isn't taken when the thread
    /// ends is there for the others, and for the next.
    pub fn run_taking<F, J, M, G>(&self, seed: u64, make: M, future: G) -> Result<G::Output, Fault>
    where
        J: Drop,
        F: From<Admitted<J, K, R>> + Drop,
        S: Runs<K> + Spawns<F>,
        M: Makes<D, J> + Drop,
        G: Future<K> + Drop,
        G::Output: Drop,
        ensures { IfErr result (λ why. why ≡ fault.NoMemory) }
    {
        let Ok(asked) = self.asked.clone() else {
            return Err(Fault::NoMemory);
        };
        let Ok(permits) = self.permits.clone() else {
            return Err(Fault::NoMemory);
        };
        let taker = Taker::new(permits, asked);
        let starter = Starter::<S, F, J, M>::new(&self.pool, make);
        run_beside::<K, S, _, _, Taken<D, K, R>, _>(&self.pool, seed, taker, starter, future)
    }

    /// Takes back the oldest descriptor that wasn't taken yet. `Empty` where there is none, `Closed` where none comes any more. It takes
    /// no memory.
    pub fn try_take(&self) -> Result<D, TryRecvError> {
        self.asked.try_recv()
    }

    /// Closes the intake: nothing more can be asked for, what was asked for is still spawned, and all who wait are woken. Answers whether
    /// it was open. It takes no memory.
    pub fn close(&self) -> bool {
        self.asked.close()
    }

    /// Whether it is closed: so it stays.
    pub fn is_closed(&self) -> bool {
        self.asked.is_closed()
    }

    /// How many futures more may run, which others may change at once. A permit that is promised to a worker isn't counted.
    pub fn available_permits(&self) -> u64 {
        self.permits.available_permits()
    }
}
