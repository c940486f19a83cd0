//! What a schedule value is given, and what a queue or a list keeps of a task.
ghost use Rattle.std.specs.Prelude.{◌≡◌, ◌↔◌, IfErr, IfOk, IfSome, IsTrue};
ghost use Rattle.async_task.specs.Due.{WasIdle};

use crate::bounds::{Output, OutsideWaker};
use crate::cell::fixed::{claim_present, read};
use crate::cell::resting::{Rested, Stored, Thing, rest, store};
use crate::cell::returning::GoesBack;
use crate::cell::{Held, Identity, Realm, RunnableToken, Site, WakerToken};
use crate::realm::Returns;
use crate::runnable::Runnable;
use crate::schedule::{Schedule, ScheduleInfo, Shared};
use crate::waker::TaskWaker;
use std::marker::Model;
use std::sync::Wait;

/// A Runnable as a schedule value is given it. It has no drop: it is stored, made a `Runnable`
/// again, or closed.
pub struct Scheduled<F: 'static, T: 'static, S: 'static, M: 'static, W: 'static, R> {
    pub(crate) held: Held<F, T, S, M, W, R>,
    pub(crate) token: RunnableToken<F, T, W>,
}

impl<F: 'static, T: 'static, S: 'static, M: 'static, W: 'static, R> Model
    for Scheduled<F, T, S, M, W, R> {
    ghost use Rattle.async_task.specs.Handles.{Handle};

    ghost Value = { Handle M };

    ghost view = { λ h. h.held };
}

/// A Runnable as a queue keeps it, which may belong to the schedule value of that very task. It
/// stands for one Runnable, which rests in its cell. It has no drop: it is redeemed, closed, or given back to its
/// realm.
pub struct StoredRunnable<M = ()> {
    returns: &'static Returns,
    place: usize,
    metadata: M,
    rested: Rested,
}

impl<M> Model for StoredRunnable<M> {
    ghost use Rattle.async_task.specs.Handles.{Handle};

    ghost Value = { Handle M };

    ghost view = { λ s. record {
      identity = record { realm = s.returns.now.number; place = s.place };
      metadata = s.metadata;
    } };
}

/// A waker as a list keeps it, which may belong to the schedule value of that very task. It stands
/// for one waker, whose reference rests in its task's cell. It has no drop: it is redeemed, called, released, or
/// given back to its realm.
pub struct StoredWaker {
    returns: &'static Returns,
    place: usize,
    stored: Stored,
}

impl Model for StoredWaker {
    ghost use Rattle.async_task.specs.Handles.{Resting};

    ghost Value = { Resting };

    ghost view = { λ s. record { identity = record { realm = s.returns.now.number; place = s.place } } };
}

/// A task that has to be scheduled, with the information that is passed to its schedule value.
pub struct Due<F: 'static, T: 'static, S: 'static, M: 'static, W: 'static, R> {
    pub runnable: Scheduled<F, T, S, M, W, R>,
    pub info: ScheduleInfo,
}

impl<F, T: Output, S, M, W: OutsideWaker, R> Scheduled<F, T, S, M, W, R>
where
    F: Drop + 'static,
    S: Drop + 'static,
    M: Copy + Drop + 'static,
    R: Wait + Copy + Drop,
{
    /// The Runnable for a queue.
    #[inline(always)]
    pub fn store(self) -> StoredRunnable<M>
        ensures task { result.identity ≡ self.identity }
        ensures metadata { result.metadata ≡ self.metadata }
    {
        let Scheduled { held, token } = self;
        let realm = held.realm;
        StoredRunnable::at(&realm.returns, held.place, held.metadata, rest(token))
    }

    /// The metadata that the task was made with.
    pub fn metadata(&self) -> &M
        ensures { result.now ≡ self.now.metadata }
    {
        self.held.metadata()
    }

    /// One more of the schedule value of the task, which stays where it is meanwhile.
    pub fn schedule_value(&self) -> S
    where
        S: Shared,
    {
        let claim = claim_present(&self.held.rt, &self.held.cell.fixed);
        let one_more = read(&claim).schedule.share();
        self.held.site().leave_slot(claim);
        one_more
    }

    /// Where the task lies, and so all tasks that its wakers may be kept with.
    pub fn realm(&self) -> &'static Realm<F, T, S, M, W>
        ensures { result.now.number ≡ self.now.identity.realm }
    {
        self.held.realm()
    }

    /// Closes the task, as the drop of a Runnable does. Its awaiter is woken. The answer is that awaiter's task, where it has to
    /// be queued.
    pub fn close(self) -> Option<Due<F, T, S, M, W, R>>
        ensures { IfSome result (λ due. WasIdle due.info) }
    {
        let Scheduled { held, token } = self;
        let (_, closed, future) = token.let_go(&held.rt());
        drop(future.pay());
        held.leave_later(closed.settle(&held.rt()).1)
    }
}

impl<F, T: Output, S, M, W: OutsideWaker, R> Scheduled<F, T, S, M, W, R>
where
    F: Drop + 'static,
    S: Schedule<Scheduled<F, T, S, M, W, R>> + Drop + 'static,
    M: Copy + Drop + 'static,
    R: Wait + Copy + Drop,
{
    /// The Runnable, to be run.
    #[inline(always)]
    pub fn into_runnable(self) -> Runnable<F, T, S, M, W, R>
        ensures { result ≡ self }
    {
        let Scheduled { held, token } = self;
        Runnable { held, token }
    }
}

impl<M> StoredRunnable<M> {
    /// What rests at this place.
    pub(crate) fn at(returns: &'static Returns, place: usize, metadata: M, rested: Rested) -> Self
        ensures place { result.identity ≡ record { realm = returns.now.number; place = place } }
        ensures metadata { result.metadata ≡ metadata }
    {
        StoredRunnable {
            returns,
            place,
            metadata,
            rested,
        }
    }

    /// Which task it is of.
    pub fn identity(&self) -> Identity
        ensures { result ≡ self.now.identity }
    {
        let (realm, place) = (self.returns.number(), self.place);
        Identity { realm, place }
    }

    /// The Runnable that was stored. Where it is of another realm it comes back.
    #[inline(always)]
    pub fn redeem<F, T: Output, S, W: OutsideWaker, R>(
        self,
        rt: R,
        realm: &'static Realm<F, T, S, M, W>,
    ) -> Result<Scheduled<F, T, S, M, W, R>, Self>
    where
        F: Drop + 'static,
        S: Drop + 'static,
        M: Copy + Drop + 'static,
        R: Wait + Copy + Drop,
        ensures found { IfOk result (λ found. found ≡ self) }
        ensures here { IfOk result (λ found. found.identity.realm ≡ realm.now.number) }
        ensures back { IfErr result (λ back. back ≡ self) }
    {
        match self.redeem_once(rt, realm) {
            Ok(found) => Ok(found),
            Err(stored) => stored.redeem_apart(rt, realm),
        }
    }

    /// One try of `redeem`. It comes back too where somebody else stepped meanwhile.
    #[inline(always)]
    fn redeem_once<F, T: Output, S, W: OutsideWaker, R>(
        self,
        rt: R,
        realm: &'static Realm<F, T, S, M, W>,
    ) -> Result<Scheduled<F, T, S, M, W, R>, Self>
    where
        F: Drop + 'static,
        S: Drop + 'static,
        M: Copy + Drop + 'static,
        R: Wait + Copy + Drop,
        ensures found { IfOk result (λ found. found ≡ self) }
        ensures here { IfOk result (λ found. found.identity.realm ≡ realm.now.number) }
        ensures back { IfErr result (λ back. back ≡ self) }
    {
        let StoredRunnable {
            returns,
            place,
            metadata,
            rested,
        } = self;
        let rested = match find_with(rt, realm, returns, place, metadata) {
            Some(held) => match held.site().resume_once(rested) {
                Ok(token) => return Ok(Scheduled { held, token }),
                Err(rested) => rested,
            },
            None => rested,
        };
        Err(StoredRunnable {
            returns,
            place,
            metadata,
            rested,
        })
    }

    #[cold]
    #[inline(never)]
    fn redeem_apart<F, T: Output, S, W: OutsideWaker, R>(
        self,
        rt: R,
        realm: &'static Realm<F, T, S, M, W>,
    ) -> Result<Scheduled<F, T, S, M, W, R>, Self>
    where
        F: Drop + 'static,
        S: Drop + 'static,
        M: Copy + Drop + 'static,
        R: Wait + Copy + Drop,
        ensures found { IfOk result (λ found. found ≡ self) }
        ensures here { IfOk result (λ found. found.identity.realm ≡ realm.now.number) }
        ensures back { IfErr result (λ back. back ≡ self) }
    {
        let StoredRunnable {
            returns,
            place,
            metadata,
            rested,
        } = self;
        let rested = match find_with(rt, realm, returns, place, metadata) {
            Some(held) => match held.site().resume(rested) {
                Ok(token) => return Ok(Scheduled { held, token }),
                Err(rested) => rested,
            },
            None => rested,
        };
        Err(StoredRunnable {
            returns,
            place,
            metadata,
            rested,
        })
    }

    /// Closes the task, as `Scheduled::close` does, with the same answer. Where it is of another realm it comes back.
    pub fn close<F, T: Output, S, W: OutsideWaker, R>(
        self,
        rt: R,
        realm: &'static Realm<F, T, S, M, W>,
    ) -> Result<Option<Due<F, T, S, M, W, R>>, Self>
    where
        F: Drop + 'static,
        S: Drop + 'static,
        M: Copy + Drop + 'static,
        R: Wait + Copy + Drop,
        ensures idle { IfOk result (λ due. IfSome due (λ due. WasIdle due.info)) }
        ensures back { IfErr result (λ back. back ≡ self) }
    {
        match self.redeem(rt, realm) {
            Ok(scheduled) => Ok(scheduled.close()),
            Err(back) => Err(back),
        }
    }
}

impl<M: Drop> GoesBack for StoredRunnable<M> {
    fn go_back(self) {
        let StoredRunnable {
            returns,
            place,
            metadata: _,
            rested,
        } = self;
        returns.keep(place, Thing::Runnable(rested));
    }
}

impl StoredWaker {
    /// What rests at this place.
    pub(crate) fn at(returns: &'static Returns, place: usize, stored: Stored) -> Self
        ensures { result.identity ≡ record { realm = returns.now.number; place = place } }
    {
        StoredWaker {
            returns,
            place,
            stored,
        }
    }

    /// It isn't at its place.
    pub(crate) fn set_aside(self) {
        let StoredWaker {
            returns,
            place: _,
            stored,
        } = self;
        returns.set_aside(Thing::Waker(stored));
    }

    /// Which task it is of.
    pub fn identity(&self) -> Identity
        ensures { result ≡ self.now.identity }
    {
        let (realm, place) = (self.returns.number(), self.place);
        Identity { realm, place }
    }

    /// The waker that was stored. Where it is of another realm it comes back.
    pub fn redeem<F, T: Output, S, M, W: OutsideWaker, R>(
        self,
        rt: R,
        realm: &'static Realm<F, T, S, M, W>,
    ) -> Result<TaskWaker<F, T, S, M, W, R>, Self>
    where
        F: Drop + 'static,
        S: Schedule<Scheduled<F, T, S, M, W, R>> + Drop + 'static,
        M: Copy + Drop + 'static,
        R: Wait + Copy + Drop,
        ensures found { IfOk result (λ found. found.identity ≡ self.identity) }
        ensures here { IfOk result (λ found. found.identity.realm ≡ realm.now.number) }
        ensures back { IfErr result (λ back. back ≡ self) }
    {
        match self.find(rt, realm) {
            Ok((site, token)) => Ok(TaskWaker::of(site.held(), token)),
            Err(back) => Err(back),
        }
    }

    /// Wakes the task, and is gone. The answer is the task, where it has to be queued. A schedule value that wakes tasks calls
    /// this, and goes on with the answer in a loop, since its own `schedule` can't be called from within. A waker of another realm
    /// comes back.
    pub fn wake<F, T: Output, S, M, W: OutsideWaker, R>(
        self,
        rt: R,
        realm: &'static Realm<F, T, S, M, W>,
    ) -> Result<Option<Due<F, T, S, M, W, R>>, Self>
    where
        F: Drop + 'static,
        S: Drop + 'static,
        M: Copy + Drop + 'static,
        R: Wait + Copy + Drop,
        ensures task { IfOk result (λ due. IfSome due (λ due. due.runnable.identity ≡ self.identity)) }
        ensures idle { IfOk result (λ due. IfSome due (λ due. WasIdle due.info)) }
        ensures back { IfErr result (λ back. back ≡ self) }
    {
        match self.find(rt, realm) {
            Ok((site, token)) => Ok(site.wake_and_release_later(token)),
            Err(back) => Err(back),
        }
    }

    /// Drops the waker. Where the task has to be queued then, it is the answer. A waker of another realm comes back.
    #[inline(always)]
    pub fn release<F, T: Output, S, M, W: OutsideWaker, R>(
        self,
        rt: R,
        realm: &'static Realm<F, T, S, M, W>,
    ) -> Result<Option<Due<F, T, S, M, W, R>>, Self>
    where
        F: Drop + 'static,
        S: Drop + 'static,
        M: Copy + Drop + 'static,
        R: Wait + Copy + Drop,
        ensures task { IfOk result (λ due. IfSome due (λ due. due.runnable.identity ≡ self.identity)) }
        ensures idle { IfOk result (λ due. IfSome due (λ due. WasIdle due.info)) }
        ensures back { IfErr result (λ back. back ≡ self) }
    {
        match self.find(rt, realm) {
            Ok((site, token)) => Ok(site.release_later(token)),
            Err(back) => Err(back),
        }
    }

    /// Where the task lies, and the reference.
    #[inline(always)]
    pub(crate) fn find<F, T: Output, S, M, W: OutsideWaker, R>(
        self,
        rt: R,
        realm: &'static Realm<F, T, S, M, W>,
    ) -> Result<(Site<F, T, S, M, W, R>, WakerToken<F, T, W>), Self>
    where
        F: Drop + 'static,
        S: Drop + 'static,
        M: Copy + Drop + 'static,
        R: Wait + Copy + Drop,
        ensures found { IfOk result (λ found. found.0.identity ≡ self.identity) }
        ensures here { IfOk result (λ found. found.0.identity.realm ≡ realm.now.number) }
        ensures back { IfErr result (λ back. back ≡ self) }
    {
        let StoredWaker {
            returns,
            place,
            stored,
        } = self;
        let stored = match find(rt, realm, returns, place) {
            Some(site) => match site.redeem(stored) {
                Ok(token) => return Ok((site, token)),
                Err(stored) => stored,
            },
            None => stored,
        };
        Err(StoredWaker {
            returns,
            place,
            stored,
        })
    }
}

impl GoesBack for StoredWaker {
    fn go_back(self) {
        let StoredWaker {
            returns,
            place,
            stored,
        } = self;
        returns.keep(place, Thing::Waker(stored));
    }
}

impl<F, T: Output, S, M, W, R> Held<F, T, S, M, W, R>
where
    F: Drop + 'static,
    S: Drop + 'static,
    M: Copy + Drop + 'static,
    W: Drop + 'static,
    R: Wait + Copy + Drop,
{
    /// A waker of this task for a list.
    pub(crate) fn stored(&self, token: WakerToken<F, T, W>) -> StoredWaker
        ensures { result.identity ≡ self.now.identity }
    {
        let realm = self.realm;
        StoredWaker::at(&realm.returns, self.place, store(token))
    }
}

/// Whether what rests is of this realm.
#[inline(always)]
fn is_of<F: Drop, T: Drop, S: Drop, M: Drop, W: Drop>(
    returns: &Returns,
    realm: &Realm<F, T, S, M, W>,
) -> bool
    ensures { IsTrue result ↔ returns.now.number ≡ realm.now.number }
{
    returns.number() == realm.number()
}

/// Where the task of what rests at this place lies, where that is of this realm.
#[inline(always)]
pub(crate) fn find<F, T: Output, S, M, W, R>(
    rt: R,
    realm: &'static Realm<F, T, S, M, W>,
    returns: &'static Returns,
    place: usize,
) -> Option<Site<F, T, S, M, W, R>>
where
    F: Drop + 'static,
    S: Drop + 'static,
    M: Copy + Drop + 'static,
    W: Drop + 'static,
    R: Wait + Copy + Drop,
    ensures found { IfSome result (λ site. site.identity ≡ record { realm = returns.now.number; place = place }) }
    ensures here { IfSome result (λ site. site.identity.realm ≡ realm.now.number) }
{
    if is_of(returns, realm) {
        Site::at(rt, realm, place)
    } else {
        None
    }
}

/// The way to that task, where its metadata are at hand.
#[inline(always)]
pub(crate) fn find_with<F, T: Output, S, M, W, R>(
    rt: R,
    realm: &'static Realm<F, T, S, M, W>,
    returns: &'static Returns,
    place: usize,
    metadata: M,
) -> Option<Held<F, T, S, M, W, R>>
where
    F: Drop + 'static,
    S: Drop + 'static,
    M: Copy + Drop + 'static,
    W: Drop + 'static,
    R: Wait + Copy + Drop,
    ensures found { IfSome result (λ held. held.identity ≡ record { realm = returns.now.number; place = place }) }
    ensures metadata { IfSome result (λ held. held.metadata ≡ metadata) }
    ensures here { IfSome result (λ held. held.identity.realm ≡ realm.now.number) }
{
    if is_of(returns, realm) {
        Held::at(rt, realm, place, metadata)
    } else {
        None
    }
}
