//! What is done with the futures of a store while it is open, each in one call of `Places`. No code of a user runs here: what
//! comes out is `Foreign` or `TakenOut`.
ghost use Rattle.std.specs.Prelude.{◌≡◌, None, Some, IfSome};
ghost use Rattle.executor_parts.specs.Places.{entry_in, set_future, future_of, displaced, parts_of, left_by};

use crate::entry::Unlocked;
use crate::foreign::{Foreign, came_out};
use crate::names::Futures;
use crate::output::Output;
use async_task::{Future, Poll};
use executor_parts::EntryPlace;

/// A future that was taken out of its entry, with the entry's place. It has no drop: it is put back there, or dropped.
#[must_use]
pub struct TakenOut<F> {
    place: EntryPlace,
    future: Foreign<F>,
}

/// An entry that left.
#[must_use]
pub struct Left<F, T> {
    /// The future, where it was there.
    pub future: Option<Foreign<F>>,
    /// The place of the output.
    pub output: Output<T>,
}

/// Takes the future out of the entry at this place. None where there is no such entry, or the future is out.
#[inline(always)]
pub fn take<F, T>(futures: &mut Futures<F, T>, place: EntryPlace) -> Option<TakenOut<F>>
    ensures out { futures.new.entries ≡ set_future place None futures.old.entries }
    ensures taken { IfSome result (λ taken. (taken.place ≡ place) × (Some taken.future ≡ future_of (entry_in place futures.old.entries))) }
    ensures rest { futures.new ≡ record futures.old { entries = futures.new.entries } }
{
    match futures.take(place) {
        Some(future) => Some(TakenOut {
            place,
            future: Foreign::of(future),
        }),
        None => None,
    }
}

/// Puts a future back into the entry that it was taken out of. A future that has no place then comes back.
#[inline(always)]
pub fn put_back<F, T>(futures: &mut Futures<F, T>, taken: TakenOut<F>) -> Option<Foreign<F>>
    ensures over { result ≡ displaced taken.future (entry_in taken.place futures.old.entries) }
    ensures back { futures.new.entries ≡ set_future taken.place (Some taken.future) futures.old.entries }
    ensures rest { futures.new ≡ record futures.old { entries = futures.new.entries } }
{
    let TakenOut { place, future } = taken;
    came_out(futures.put_back(place, future.into_stored()))
}

/// Removes the entry at this place.
#[inline(always)]
pub fn leave<F, T>(futures: &mut Futures<F, T>, place: EntryPlace) -> Option<Left<F, T>>
    ensures parts { IfSome result (λ left. parts_of (entry_in place futures.old.entries) ≡ Some (left.future, left.output)) }
    ensures left { futures.new.entries ≡ left_by place futures.old.entries }
    ensures limit { futures.new.limit ≡ futures.old.limit }
{
    match futures.leave(place) {
        Some((future, output)) => Some(Left {
            future: came_out(future),
            output,
        }),
        None => None,
    }
}

impl<F> TakenOut<F> {
    /// Polls the future.
    pub fn poll<K>(&mut self, waker: &K, unlocked: &Unlocked) -> Poll<F::Output>
    where
        F: Future<K>,
        ensures { self.new.place ≡ self.old.place }
    {
        self.future.poll(waker, unlocked)
    }

    /// Drops the future.
    pub fn let_go(self, unlocked: &Unlocked)
    where
        F: Drop,
    {
        let TakenOut { place: _, future } = self;
        future.let_go(unlocked);
    }
}
