//! What returns to its realm when it is let go.
ghost use Rattle.std.specs.Prelude.{◌≡◌, IfSome};
ghost use Rattle.async_task.specs.Due.{WasIdle};
ghost use Rattle.async_task.specs.Handles.{task_of};

use crate::bounds::{Output, OutsideWaker};
use crate::cell::resting::{Lot, Thing};
use crate::cell::scheduled::{Due, Scheduled, StoredRunnable, StoredWaker};
use crate::cell::{Realm, Site, pay_due};
use crate::schedule::Schedule;
use crate::stored_task::StoredTask;
use crate::task::Task;
use crate::waker::TaskWaker;
use std::marker::Model;
use std::sync::Wait;

/// What rests in a cell, whose realm takes it back.
pub trait GoesBack {
    /// Goes back to its realm, which closes a Runnable, and drops a waker or a handle, at its next `close_returned`.
    /// It takes no memory and runs no code of a user.
    fn go_back(self);
}

/// What rests in a cell, for a place whose things are dropped: its drop gives it back to its realm.
pub struct Returning<X: GoesBack> {
    stored: X,
}

/// A contract sees what rests.
impl<X: GoesBack> Model for Returning<X> {
    ghost Value = { X };

    ghost view = { λ returning. returning.stored };
}

impl<X: GoesBack> Returning<X> {
    /// It goes back once it is dropped.
    pub fn new(stored: X) -> Self
        ensures { result ≡ stored }
    {
        Returning { stored }
    }

    /// What rests, as long as it does.
    pub(crate) fn inner(&self) -> &X
        ensures { result.now ≡ self.now }
    {
        &self.stored
    }

    /// What rests, which is then to be redeemed, closed or released.
    pub fn into_inner(self) -> X
        ensures { result ≡ self }
    {
        let Returning { stored } = self;
        stored
    }
}

impl<M: Drop> Returning<StoredRunnable<M>> {
    /// The Runnable that was stored. One of another realm goes back there.
    pub fn redeem<F, T: Output, S, W: OutsideWaker, R>(
        self,
        rt: R,
        realm: &'static Realm<F, T, S, M, W>,
    ) -> Option<Scheduled<F, T, S, M, W, R>>
    where
        F: Drop + 'static,
        S: Drop + 'static,
        M: Copy + 'static,
        R: Wait + Copy + Drop,
        ensures found { IfSome result (λ found. found ≡ self) }
        ensures here { IfSome result (λ found. found.identity.realm ≡ realm.now.number) }
    {
        match self.into_inner().redeem(rt, realm) {
            Ok(found) => Some(found),
            Err(stored) => {
                stored.go_back();
                None
            }
        }
    }
}

impl Returning<StoredWaker> {
    /// The waker that was stored. One of another realm goes back there.
    pub fn redeem<F, T: Output, S, M, W: OutsideWaker, R>(
        self,
        rt: R,
        realm: &'static Realm<F, T, S, M, W>,
    ) -> Option<TaskWaker<F, T, S, M, W, R>>
    where
        F: Drop + 'static,
        S: Schedule<Scheduled<F, T, S, M, W, R>> + Drop + 'static,
        M: Copy + Drop + 'static,
        R: Wait + Copy + Drop,
        ensures found { IfSome result (λ found. found.identity ≡ self.identity) }
        ensures here { IfSome result (λ found. found.identity.realm ≡ realm.now.number) }
    {
        match self.into_inner().redeem(rt, realm) {
            Ok(found) => Some(found),
            Err(stored) => {
                stored.go_back();
                None
            }
        }
    }

    /// Wakes the task, and is gone, with the answer of `StoredWaker::wake`. One of another realm goes back there.
    pub fn wake<F, T: Output, S, M, W: OutsideWaker, R>(
        self,
        rt: R,
        realm: &'static Realm<F, T, S, M, W>,
    ) -> Option<Due<F, T, S, M, W, R>>
    where
        F: Drop + 'static,
        S: Drop + 'static,
        M: Copy + Drop + 'static,
        R: Wait + Copy + Drop,
        ensures task { IfSome result (λ due. due.runnable.identity ≡ self.identity) }
        ensures idle { IfSome result (λ due. WasIdle due.info) }
    {
        match self.into_inner().find(rt, realm) {
            Ok((site, token)) => site.wake_and_release_later(token),
            Err(stored) => {
                stored.go_back();
                None
            }
        }
    }

    /// Drops the waker, with the answer of `StoredWaker::release`. One of another realm goes back there.
    #[inline(always)]
    pub fn release<F, T: Output, S, M, W: OutsideWaker, R>(
        self,
        rt: R,
        realm: &'static Realm<F, T, S, M, W>,
    ) -> Option<Due<F, T, S, M, W, R>>
    where
        F: Drop + 'static,
        S: Drop + 'static,
        M: Copy + Drop + 'static,
        R: Wait + Copy + Drop,
        ensures task { IfSome result (λ due. due.runnable.identity ≡ self.identity) }
        ensures idle { IfSome result (λ due. WasIdle due.info) }
    {
        match self.into_inner().find(rt, realm) {
            Ok((site, token)) => site.release_later(token),
            Err(stored) => {
                stored.go_back();
                None
            }
        }
    }
}

impl<M: Drop> Returning<StoredTask<M>> {
    /// The handle that was stored. One of another realm goes back there.
    pub fn redeem<F: Drop + 'static, T: Output, S, W: OutsideWaker, R: Wait + Copy + Drop>(
        self,
        rt: R,
        realm: &'static Realm<F, T, S, M, W>,
    ) -> Option<Task<F, T, S, M, W, R>>
    where
        S: Schedule<Scheduled<F, T, S, M, W, R>> + Drop + 'static,
        M: Copy + 'static,
        ensures found { IfSome result (λ found. task_of found ≡ self) }
        ensures here { IfSome result (λ found. found.identity.realm ≡ realm.now.number) }
    {
        match self.into_inner().redeem(rt, realm) {
            Ok(found) => Some(found),
            Err(stored) => {
                stored.go_back();
                None
            }
        }
    }
}

impl<X: GoesBack> Drop for Returning<X> {
    fn drop(self) {
        let Returning { stored } = self;
        stored.go_back();
    }
}

/// Closes each Runnable, drops each waker and each handle that was let go of tasks in this realm. It runs code of
/// users, so that no lock of theirs may be held.
pub fn close_returned<F, T, S, M, W, R>(rt: R, realm: &'static Realm<F, T, S, M, W>)
where
    F: Drop + 'static,
    T: Output,
    S: Schedule<Scheduled<F, T, S, M, W, R>> + Drop + 'static,
    M: Copy + Drop + 'static,
    W: OutsideWaker,
    R: Wait + Copy + Drop,
{
    for _ in rt.forever() {
        let Some((place, lot)) = realm.returns.take() else {
            return;
        };
        end_all(rt, realm, place, lot);
    }
    unreachable!()
}

/// Ends all that rests at this place and was let go.
fn end_all<F, T, S, M, W, R>(rt: R, realm: &'static Realm<F, T, S, M, W>, place: usize, lot: Lot)
where
    F: Drop + 'static,
    T: Output,
    S: Schedule<Scheduled<F, T, S, M, W, R>> + Drop + 'static,
    M: Copy + Drop + 'static,
    W: OutsideWaker,
    R: Wait + Copy + Drop,
{
    let mut lot = lot;
    for _ in rt.forever() {
        match lot.next() {
            Some((thing, rest)) => {
                end(rt, realm, place, thing);
                lot = rest;
            }
            None => return,
        }
    }
    unreachable!()
}

/// Ends what rests at this place. Where it isn't there it is set aside: that each thing rests at its place the types
/// don't say.
fn end<F, T, S, M, W, R>(rt: R, realm: &'static Realm<F, T, S, M, W>, place: usize, thing: Thing)
where
    F: Drop + 'static,
    T: Output,
    S: Schedule<Scheduled<F, T, S, M, W, R>> + Drop + 'static,
    M: Copy + Drop + 'static,
    W: OutsideWaker,
    R: Wait + Copy + Drop,
{
    let returns = &realm.returns;
    match thing {
        Thing::Runnable(rested) => match Site::at(rt, realm, place) {
            Some(site) => match site.resume(rested) {
                Ok(token) => {
                    let held = site.held();
                    pay_due(Scheduled { held, token }.close());
                }
                Err(rested) => returns.set_aside(Thing::Runnable(rested)),
            },
            None => returns.set_aside(Thing::Runnable(rested)),
        },
        Thing::Waker(waker) => match StoredWaker::at(returns, place, waker).release(rt, realm) {
            Ok(due) => pay_due(due),
            Err(stored) => stored.set_aside(),
        },
        Thing::Handle(parked) => match Site::at(rt, realm, place) {
            Some(site) => match site.unpark(parked) {
                Ok((token, duty)) => drop(Task::of(site.held(), token, duty)),
                Err(parked) => returns.set_aside(Thing::Handle(parked)),
            },
            None => returns.set_aside(Thing::Handle(parked)),
        },
    }
}
