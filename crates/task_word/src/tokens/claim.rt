//! What a handle has of its cell, in a form that threads may share by reference, which a badge isn't.
ghost use Rattle.std.specs.Prelude.{◌≡◌, [], ◌∷◌};
ghost use Rattle.task_word.specs.declared.rule.View.{View};
ghost use base.Fml.{ftrue};

use crate::rule::View;
use atomic_table::{Badge, Seat};
use std::marker::Model;

/// The badge of a handle's seat. It is only put in and taken out: by reference there is nothing to do with it.
pub struct Claim {
    badge: Badge<View>,
}

impl Model for Claim {
    ghost also_owns = { λ _. ftrue };
}

impl Claim {
    #[inline(always)]
    pub(crate) fn of(badge: Badge<View>) -> Claim
        ensures { result.badge ≡ badge }
    {
        Claim { badge }
    }

    /// A claim to nothing.
    #[inline(always)]
    pub(crate) fn blank() -> Claim
        ensures { result.badge.views ≡ [] }
    {
        Claim::of(Badge::blank())
    }

    #[inline(always)]
    fn into_badge(self) -> Badge<View>
        ensures { result ≡ self.badge }
    {
        let Claim { badge } = self;
        badge
    }

    #[inline(always)]
    pub(crate) fn into_seat<S>(self) -> Seat<S, View>
        requires { (v : View) × (self.badge.views ≡ v ∷ []) }
        ensures { (result.table_id ≡ self.badge.table_id) × (result.id ≡ self.badge.id) × (self.badge.views ≡ result.me.0 ∷ []) × (result.me.1 ≡ []) }
    {
        self.into_badge().into_seat()
    }
}

impl Drop for Claim {
    #[inline(always)]
    fn drop(self) {
        drop(self.into_badge());
    }
}

unsafe impl Send for Claim {}

unsafe impl Sync for Claim {}
