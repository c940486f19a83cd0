ghost use Rattle.std.specs.Prelude.{◌≡◌, IfErr, IfOk};
ghost use Rattle.async_task.specs.Handles.{task_of};

use crate::bounds::{Output, OutsideWaker};
use crate::cell::{GoesBack, Identity, Parked, Realm, Scheduled, Thing, find_with};
use crate::realm::Returns;
use crate::schedule::Schedule;
use crate::task::Task;
use std::marker::Model;
use std::sync::Wait;

/// A handle as a list keeps it. It stands for one handle, which rests in its task's cell. It has no drop: it is redeemed, or given
/// back to its realm.
pub struct StoredTask<M = ()> {
    returns: &'static Returns,
    place: usize,
    metadata: M,
    parked: Parked,
}

impl<M> Model for StoredTask<M> {
    ghost use Rattle.async_task.specs.Handles.{Handle};

    ghost Value = { Handle M };

    ghost view = { λ s. record {
      identity = record { realm = s.returns.now.number; place = s.place };
      metadata = s.metadata;
    } };
}

impl<M> StoredTask<M> {
    /// What rests at this place.
    pub(crate) fn at(returns: &'static Returns, place: usize, metadata: M, parked: Parked) -> Self
        ensures place { result.identity ≡ record { realm = returns.now.number; place = place } }
        ensures metadata { result.metadata ≡ metadata }
    {
        StoredTask {
            returns,
            place,
            metadata,
            parked,
        }
    }

    /// Which task it is of.
    pub fn identity(&self) -> Identity
        ensures { result ≡ self.now.identity }
    {
        let (realm, place) = (self.returns.number(), self.place);
        Identity { realm, place }
    }

    /// Redeems the handle that was stored. It takes no memory. Where it is of another realm it comes back. It would also come back
    /// where no handle rested at its place, which tests exclude and no clause does.
    pub fn redeem<F: Drop + 'static, T: Output, S, W: OutsideWaker, R: Wait + Copy + Drop>(
        self,
        rt: R,
        realm: &'static Realm<F, T, S, M, W>,
    ) -> Result<Task<F, T, S, M, W, R>, Self>
    where
        S: Schedule<Scheduled<F, T, S, M, W, R>> + Drop + 'static,
        M: Copy + Drop + 'static,
        ensures found { IfOk result (λ found. task_of found ≡ self) }
        ensures here { IfOk result (λ found. found.identity.realm ≡ realm.now.number) }
        ensures back { IfErr result (λ back. back ≡ self) }
    {
        let StoredTask {
            returns,
            place,
            metadata,
            parked,
        } = self;
        match find_with(rt, realm, returns, place, metadata) {
            Some(held) => match held.site().unpark(parked) {
                Ok((token, duty)) => Ok(Task::of(held, token, duty)),
                Err(parked) => Err(StoredTask {
                    returns,
                    place,
                    metadata,
                    parked,
                }),
            },
            None => Err(StoredTask {
                returns,
                place,
                metadata,
                parked,
            }),
        }
    }
}

impl<M: Drop> GoesBack for StoredTask<M> {
    fn go_back(self) {
        let StoredTask {
            returns,
            place,
            metadata: _,
            parked,
        } = self;
        returns.keep(place, Thing::Handle(parked));
    }
}
