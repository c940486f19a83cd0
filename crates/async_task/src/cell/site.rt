//! A way to one task's cell without the task's metadata, for calls that have something that rests there. The metadata are read for
//! a Runnable that is to be handed on.
ghost use Rattle.std.specs.Prelude.{◌≡◌, IfSome};
ghost use Rattle.async_task.specs.Due.{IsDueBy, WasIdle};
ghost use Rattle.async_task.specs.Slots.{CanRead};

use crate::bounds::Output;
use crate::cell::fixed::{Claimed, claim_present, end, leave, read};
use crate::cell::resting::{Thing, rest};
use crate::cell::{Cell, Due, Held, Realm, Scheduled, Woken};
use std::marker::Model;
use std::sync::Wait;

/// Where a task lies.
#[derive(Drop)]
pub(crate) struct Site<F: 'static, T: 'static, S: 'static, M: 'static, W: 'static, R> {
    pub(crate) realm: &'static Realm<F, T, S, M, W>,
    pub(crate) cell: &'static Cell<F, T, S, M, W>,
    pub(crate) place: usize,
    pub(crate) rt: R,
}

impl<F: 'static, T: 'static, S: 'static, M: 'static, W: 'static, R> Model
    for Site<F, T, S, M, W, R> {
    ghost use Rattle.async_task.specs.Handles.{Resting};

    ghost Value = { Resting };

    ghost view = { λ s. record { identity = record { realm = s.realm.now.number; place = s.place } } };
}

impl<F, T: Output, S, M, W, R> Site<F, T, S, M, W, R>
where
    F: Drop + 'static,
    S: Drop + 'static,
    M: Copy + Drop + 'static,
    W: Drop + 'static,
    R: Wait + Copy + Drop,
{
    /// The cell at this place.
    #[inline(always)]
    pub(crate) fn of(
        rt: R,
        realm: &'static Realm<F, T, S, M, W>,
        place: usize,
        cell: &'static Cell<F, T, S, M, W>,
    ) -> Self
        ensures { result.identity ≡ record { realm = realm.now.number; place = place } }
    {
        Site {
            realm,
            cell,
            place,
            rt,
        }
    }

    /// The cell that lies at this place, where one does.
    #[inline(always)]
    pub(crate) fn at(rt: R, realm: &'static Realm<F, T, S, M, W>, place: usize) -> Option<Self>
        ensures { IfSome result
            (λ site. site.identity ≡ record { realm = realm.now.number; place = place }) }
    {
        match realm.lasting(place) {
            Some(cell) => Some(Site::of(rt, realm, place, cell)),
            None => None,
        }
    }

    /// The way to the task that lies here, with its metadata.
    pub(crate) fn held(self) -> Held<F, T, S, M, W, R>
        ensures { result.identity ≡ self.identity }
    {
        let cell = self.cell;
        let claim = claim_present(&self.rt, &cell.fixed);
        let metadata = read(&claim).metadata;
        self.leave_slot(claim);
        Held::of(self.rt, self.realm, self.place, cell, metadata)
    }

    /// The Runnable, and the schedule value that it has to be handed to.
    pub(crate) fn due(self, woken: Woken<F, T, W>) -> Due<F, T, S, M, W, R>
        requires { WasIdle woken.info }
        ensures { IsDueBy self result }
    {
        let Woken { token, info } = woken;
        let held = self.held();
        Due {
            runnable: Scheduled { held, token },
            info,
        }
    }

    /// A Runnable for which nobody is there goes back to its realm.
    pub(crate) fn give_back(&self, woken: Woken<F, T, W>) {
        let Woken { token, info: _ } = woken;
        let rested = Thing::Runnable(rest(token));
        self.realm.returns.keep(self.place, rested);
    }

    /// The task of this cell is gone: its place is free, once nobody reads there any more.
    pub(crate) fn empty(
        rt: R,
        realm: &'static Realm<F, T, S, M, W>,
        place: usize,
        cell: &'static Cell<F, T, S, M, W>,
    ) {
        if end(&rt, &cell.fixed) {
            realm.release(place);
        }
    }

    /// Ends a read of what never changes of the task.
    #[inline(always)]
    pub(crate) fn leave_slot(&self, claim: Claimed<'_, S, M>)
        requires { CanRead claim }
    {
        if leave(&self.cell.fixed, claim) {
            self.realm.release(self.place);
        }
    }
}
