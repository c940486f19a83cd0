//! Values of a user's that came out from under the lock or out of a store.
ghost use Rattle.std.specs.Prelude.{◌≡◌};

use crate::entry::Unlocked;
use async_task::{Future, Poll, Wake};
use std::marker::Model;

/// A value of a user's, whose code runs only while nothing is locked or open. It has no drop: a party that is lent an `Unlocked`
/// drops or calls it. A contract sees the value.
#[must_use]
pub struct Foreign<X> {
    value: X,
}

impl<X> Model for Foreign<X> {
    ghost Value = { X };

    ghost view = { λ f. f.value };
}

impl<X> Foreign<X> {
    #[inline(always)]
    pub fn of(value: X) -> Self
        ensures { result ≡ value }
    {
        Foreign { value }
    }

    /// Takes the value, to be put under the lock or into a store, where none of its code runs.
    pub fn into_stored(self) -> X
        ensures { result ≡ self }
    {
        let Foreign { value } = self;
        value
    }

    /// Takes the value, to be given to the user.
    pub fn into_given(self) -> X
        ensures { result ≡ self }
    {
        let Foreign { value } = self;
        value
    }

    /// Polls a future.
    #[inline(always)]
    pub fn poll<K>(&mut self, waker: &K, unlocked: &Unlocked) -> Poll<X::Output>
    where
        X: Future<K>,
    {
        let _ = unlocked;
        self.value.poll(waker)
    }

    /// Calls a waker.
    pub fn wake(self, unlocked: &Unlocked)
    where
        X: Wake,
    {
        let _ = unlocked;
        let Foreign { value } = self;
        value.wake();
    }

    /// Drops the value.
    #[inline(always)]
    pub fn let_go(self, unlocked: &Unlocked)
    where
        X: Drop,
    {
        let _ = unlocked;
        let Foreign { value } = self;
        drop(value);
    }
}

/// Wraps the value that came out, where one did.
#[inline(always)]
pub fn came_out<X>(value: Option<X>) -> Option<Foreign<X>>
    ensures { result ≡ value }
{
    match value {
        Some(value) => Some(Foreign::of(value)),
        None => None,
    }
}

/// Drops what came out, where something did.
#[inline(always)]
pub fn let_go<X: Drop>(value: Option<Foreign<X>>, unlocked: &Unlocked) {
    if let Some(value) = value {
        value.let_go(unlocked);
    }
}
