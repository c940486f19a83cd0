//! How one thread makes futures of what was taken, and spawns them.
ghost use Rattle.intake.specs.declared.starts.Started.TheVariants as started;
ghost use Rattle.std.specs.Prelude.{◌≡◌, IsSome, None, Some};

use crate::admitted::Admitted;
use crate::asked::Taken;
use crate::makes::Makes;
use crate::spawns::{Spawned, Spawns};
use crate::starts::{Started, Starts};
use async_executor::SpawnError;
use async_task::Wake;
use std::marker::PhantomData;
use std::sync::Wait;

/// Makes futures `J`, and spawns them as futures `F` with their permits. It drops a future that is kept.
pub struct Starter<'a, S, F: Drop, J: Drop, M: Drop> {
    pool: &'a S,
    make: M,
    made: PhantomData<J>,
    // A future that found no place.
    kept: Option<F>,
}

impl<S, F: Drop, J: Drop, M: Drop> Drop for Starter<'_, S, F, J, M> {
    fn drop(self) {
        let Starter {
            pool: _,
            make,
            made: _,
            kept,
        } = self;
        drop(kept);
        drop(make);
    }
}

impl<'a, S, F: Drop, J: Drop, M: Drop> Starter<'a, S, F, J, M> {
    pub fn new(pool: &'a S, make: M) -> Self
        ensures { result.kept ≡ None }
    {
        Starter {
            pool,
            make,
            made: PhantomData,
            kept: None,
        }
    }

    /// What a spawn came to. A future that found no place is kept.
    fn keep(&mut self, spawned: Result<Spawned, SpawnError<F>>) -> Started
        ensures { result ≡ started.Full → IsSome self.new.kept }
    {
        match spawned {
            Ok(spawned) => Started::Spawned(spawned),
            Err(SpawnError::Full(future)) => {
                self.kept = Some(future);
                Started::Full
            }
            Err(SpawnError::NoMemory(_)) => Started::NoMemory,
        }
    }
}

impl<D: Drop, K: Wake + Drop, R: Wait + Copy + Drop, S, F, J: Drop, M> Starts<Taken<D, K, R>>
    for Starter<'_, S, F, J, M>
where
    S: Spawns<F>,
    F: From<Admitted<J, K, R>> + Drop,
    M: Makes<D, J> + Drop,
{
    fn start(&mut self, taken: Taken<D, K, R>) -> Started
        ensures { result ≡ started.Full → IsSome self.new.kept }
    {
        let spawned = taken.spawn(&mut self.make, self.pool);
        self.keep(spawned)
    }

    fn start_kept(&mut self) -> Option<Started>
        ensures { result ≡ Some started.Full → IsSome self.new.kept }
    {
        match self.kept.take() {
            Some(kept) => {
                let spawned = self.pool.spawn_alone(kept);
                Some(self.keep(spawned))
            }
            None => None,
        }
    }
}
