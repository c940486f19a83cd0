//! How a future is accepted.
ghost use Rattle.std.specs.Prelude.{◌≡◌, IfOk, IfErr};
ghost use Rattle.solo.specs.Solo.{refused};
ghost use Rattle.local_executor.specs.Accepting.{Accepts, IsRefusedAt};

use crate::body::Body;
use crate::entry::{LocalExWaker, LocalHandle, Unlocked};
use crate::foreign::Foreign;
use crate::handle::Held;
use crate::names::{Futures, Tasks};
use crate::output::Output;
use crate::sections;
use crate::store::Both;
use async_task::{Future, Wake};
use executor_parts::{Mark, SpawnRefused};
use solo::{SpawnError, Spawned};
use std::alloc::Global;
use std::sync::Wait;

/// Accepts a future with this mark, while the store is open and the lock taken.
///
/// 1. Tests the limit. Without memory for an entry, or for the place of an output, the future comes back.
/// 2. Makes the task, and queues it. Where that is refused the future comes back.
/// 3. Enters the future.
fn accept<F: Drop, T: Drop, W>(
    futures: &mut Futures<F, T>,
    tasks: &mut Tasks<W>,
    alloc: Global,
    future: F,
    mark: Mark,
) -> Result<(Spawned<Foreign<W>>, Output<T>), SpawnError<F>>
    ensures accepted { IfOk result (λ both. Accepts mark future futures.old futures.new both.0 both.1 tasks.old tasks.new) }
    ensures future { IfErr result (λ error. refused error ≡ future) }
    ensures cause { IfErr result (IsRefusedAt futures.old tasks.old) }
    ensures same { IfErr result (λ _. futures.new.entries ≡ futures.old.entries) }
{
    let vacancy = match futures.vacancy() {
        Ok(vacancy) => vacancy,
        Err(SpawnRefused::Full) => return Err(SpawnError::Full(future)),
        Err(SpawnRefused::NoMemory) => return Err(SpawnError::NoMemory(future)),
    };
    let Some((own, given)) = Output::pair(alloc) else {
        vacancy.give_back();
        return Err(SpawnError::NoMemory(future));
    };
    match sections::spawn(tasks, vacancy.place(), mark) {
        Ok(spawned) => {
            futures.enter(vacancy, future, own);
            Ok((spawned, given))
        }
        Err(SpawnError::Full(_)) => {
            vacancy.give_back();
            Err(SpawnError::Full(future))
        }
        Err(SpawnError::NoMemory(_)) => {
            vacancy.give_back();
            Err(SpawnError::NoMemory(future))
        }
    }
}

impl<F: Drop, T: Drop, W> Both<'_, F, T, W> {
    fn accept(
        &mut self,
        alloc: Global,
        future: F,
        mark: Mark,
    ) -> Result<(Spawned<Foreign<W>>, Output<T>), SpawnError<F>>
        ensures { IfErr result (λ error. refused error ≡ future) }
    {
        accept(&mut *self.futures, self.locked.get(), alloc, future, mark)
    }
}

impl<F, T: Drop, W: Wake + Drop, R: Wait + Copy + Drop> Body<F, T, W, R>
where
    F: Future<LocalExWaker<W, R>, Output = T> + Drop,
{
    /// Accepts a future with this mark and queues its task, or refuses it. Then it calls the waker of the sleeper that has to be
    /// notified.
    pub(crate) fn hand_in(
        &self,
        future: F,
        mark: Mark,
        unlocked: &mut Unlocked,
    ) -> Result<LocalHandle<T, W, R>, SpawnError<F>>
        ensures back { IfErr result (λ error. refused error ≡ future) }
        ensures here { IfOk result (λ handle. handle.held.link.id ≡ self.now.link.id) }
    {
        let link = self.link.share();
        let accepted = self
            .store
            .open_with(&link, unlocked)
            .accept(self.alloc, future, mark);
        match accepted {
            Ok(both) => {
                let (spawned, output) = both;
                let Spawned { task, told } = spawned;
                link.pay_told(told, unlocked);
                Ok(LocalHandle::of(Held::new(link, task, output)))
            }
            Err(refused) => Err(refused),
        }
    }
}
