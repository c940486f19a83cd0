//! The sleepers, and when each is due.
ghost use Rattle.std.specs.Prelude.{◌≡◌, ◌≤◌, ◌<◌, ◌↔◌, ◌∷◌, [], ℕ};
ghost use Rattle.std.specs.Prelude.{Err, IfOk, IsOk, IsPermutation, IsTrue, None, OnErr, Some, false, min, nat_lt, true};
ghost use Rattle.std.specs.Duration.{as_nanos};
ghost use Rattle.slab.specs.Slab.{HasRoomFor, SameValues, Updates, get};
ghost use Rattle.timer.specs.Order.{Stay, never, time_of, times};
ghost use Rattle.timer.specs.Places.{is_asleep, marked, waker_at};
ghost use Rattle.timer.specs.declared.deadlines.Place.TheVariants.{Asleep};
ghost use Rattle.timer.specs.declared.deadlines.Refused.TheVariants.{Closed};

use crate::agenda::{Agenda, Turn};
use slab::Slab;
use std::alloc::{AllocError, Global};
use std::mem;
use std::time::Duration;

/// Later than any time that a duration can express.
const NEVER: u128 = u128::MAX;

/// The sleepers, at most as many as the limit says: when each is due, and a place for each with the waker that it left last. Each
/// call is one section of whoever locks it, and only `with_room` takes memory. No call calls or drops a waker: the caller calls or
/// drops each waker that comes out, once it has released the lock.
#[derive(Drop)]
pub struct Deadlines<K> {
    limit: usize,
    is_closed: bool,
    /// The time at which a driver looks again by itself, or of which it was notified since. A sleep that is due earlier is news to
    /// it.
    watched: u128,
    agenda: Agenda,
    places: Slab<Place<K>>,
    ghost fits: { limit ≤ places.capacity },
    ghost room: { places.capacity ≤ agenda.room },
    ghost agreed: { (place : ℕ) → is_asleep (get places place) ≡ nat_lt (time_of (times agenda) place) never },
}

/// What stands at the place of a sleeper.
#[derive(Drop)]
pub enum Place<K> {
    /// It isn't due. The waker that it left last.
    Asleep(Option<K>),
    /// It is due.
    Due,
    /// The timer was stopped before it was due.
    Stopped,
}

/// A sleeper's own record of its place. It has no drop: its owner looks or leaves.
#[must_use]
pub struct Entry {
    place: usize,
    /// When it is due, in nanoseconds.
    due: u128,
}

/// Why a sleep isn't taken.
#[derive(Clone, Copy, Debug, PartialEq, Eq, Drop)]
pub enum Refused {
    /// As many sleep as the limit allows.
    Full,
    /// The timer is closed.
    Closed,
}

/// What a sleeper found.
#[must_use]
pub enum Looked<K> {
    /// It isn't due. The waker that it had left before, to be dropped once the lock is released.
    Sleeps(Entry, Option<K>),
    /// It is due, and has left. The waker that it wanted to leave comes back.
    Due(Option<K>),
    /// The timer was stopped before it was due, and it has left. The waker that it wanted to leave comes back.
    Stopped(Option<K>),
}

/// Who is due next.
#[must_use]
pub enum Next<K> {
    /// One was due, and is marked so. The waker that it left, to be called once the lock is released.
    Told(Option<K>),
    /// Nobody is due before this many nanoseconds have passed.
    In(u128),
    /// Nobody sleeps.
    Nobody,
    /// Nobody sleeps, and no new sleep is taken.
    Closed,
}

impl<K: Drop> Deadlines<K> {
    ghost use Rattle.timer.specs.Sleeping.{HasDismissed, HasLooked, HasRoom, HasTold, IsWatched, SameTerms, sleepers};

    /// Makes a list with no sleeper. It takes memory for this many.
    pub fn with_room(alloc: Global, limit: usize) -> Result<Self, AllocError>
        ensures limit { IfOk result (λ s. s.limit ≡ limit) }
        ensures open { IfOk result (λ s. s.is_closed ≡ false) }
        ensures nobody { IfOk result (λ s. sleepers s ≡ []) }
        ensures room { IfOk result (λ s. HasRoomFor s.places limit) }
    {
        let places = Slab::with_capacity(alloc, limit)?;
        let agenda = Agenda::with_room(alloc, places.capacity())?;
        Ok(Deadlines {
            limit,
            is_closed: false,
            watched: 0,
            agenda,
            places,
        })
    }

    /// Adds a sleeper that is due at this time.
    pub fn enter(&mut self, due: Duration) -> Result<Entry, Refused>
        ensures asleep { IfOk result (λ entry. Updates self.old.places self.new.places entry.place (Some (Asleep None))) }
        ensures new_place { IfOk result (λ entry. get self.old.places entry.place ≡ None) }
        ensures due { IfOk result (λ entry. IsPermutation ((as_nanos due, entry.place) ∷ sleepers self.old) (sleepers self.new)) }
        ensures until { IfOk result (λ entry. entry.due ≡ as_nanos due) }
        ensures enters { HasRoom self.old → IsOk result }
        ensures closed { self.old.is_closed ≡ true → result ≡ Err Closed }
        ensures open { result ≡ Err Closed → self.old.is_closed ≡ true }
        ensures refused { OnErr result (sleepers self.new ≡ sleepers self.old) }
        ensures places { OnErr result (SameValues self.old.places self.new.places) }
        ensures terms { SameTerms self.old self.new }
    {
        if self.is_closed {
            return Err(Refused::Closed);
        }
        if self.places.len() >= self.limit {
            return Err(Refused::Full);
        }
        let due = due.as_nanos();
        let place = self.places.insert_reserved(Place::Asleep(None));
        self.agenda.set(place, due);
        Ok(Entry { place, due })
    }

    /// Whether this one is due before any driver looks again. A caller that gets a yes has to notify the drivers, which from then
    /// on look in time.
    pub fn is_news(&mut self, entry: &Entry) -> bool
        ensures news { IsTrue result ↔ (entry.now.due < self.old.watched) }
        ensures watched { self.new ≡ record self.old { watched = min entry.now.due self.old.watched } }
    {
        if entry.due < self.watched {
            self.watched = entry.due;
            return true;
        }
        false
    }

    /// Whether this sleeper is due. Where it isn't, it leaves this waker in the place of the one before.
    pub fn look(&mut self, entry: Entry, waker: Option<K>) -> Looked<K>
        ensures looked { HasLooked entry.place entry.due waker self.old.places self.new.places result }
        ensures others { sleepers self.new ≡ sleepers self.old }
        ensures terms { SameTerms self.old self.new }
    {
        let Entry { place, due } = entry;
        match self.places.try_remove(place) {
            Some(Place::Asleep(before)) => {
                let place = self.places.insert_reserved(Place::Asleep(waker));
                Looked::Sleeps(Entry { place, due }, before)
            }
            Some(Place::Stopped) => Looked::Stopped(waker),
            Some(Place::Due) | None => Looked::Due(waker),
        }
    }

    /// Removes a sleeper, due or not. Answers its waker, to be dropped once the lock is released.
    pub fn leave(&mut self, entry: Entry) -> Option<K>
        ensures waker { result ≡ waker_at (get self.old.places entry.place) }
        ensures left { Updates self.old.places self.new.places entry.place None }
        ensures others { Stay entry.place (sleepers self.old) (sleepers self.new) }
        ensures terms { SameTerms self.old self.new }
    {
        let Entry { place, due: _ } = entry;
        self.agenda.forget(place);
        match self.places.try_remove(place) {
            Some(Place::Asleep(waker)) => waker,
            Some(Place::Due | Place::Stopped) | None => None,
        }
    }

    /// Marks the first sleeper as due, where its time has come. A driver that finds that nobody is due yet, or nobody sleeps,
    /// looks again by then, or once it is notified of news.
    pub fn tell(&mut self, now: Duration) -> Next<K>
        ensures told { HasTold (as_nanos now) self.old self.new result }
        ensures watched { IsWatched (as_nanos now) self.new result }
        ensures terms { SameTerms self.old self.new }
    {
        let now = now.as_nanos();
        match self.agenda.turn(now) {
            Turn::Of(place) => Next::Told(mark(&mut self.places, place, Place::Due)),
            Turn::In(rest) => {
                self.watched = now + rest;
                Next::In(rest)
            }
            Turn::Nobodys if self.is_closed => Next::Closed,
            Turn::Nobodys => {
                self.watched = NEVER;
                Next::Nobody
            }
        }
    }

    /// Marks the first sleeper as stopped, before its time or not. Answers the waker that it left, to be called once the lock is
    /// released. `None` where nobody sleeps.
    pub fn dismiss(&mut self) -> Option<Option<K>>
        ensures dismissed { HasDismissed self.old self.new result }
        ensures terms { SameTerms self.old self.new }
    {
        match self.agenda.turn(NEVER) {
            Turn::Of(place) => Some(mark(&mut self.places, place, Place::Stopped)),
            Turn::In(_) => None,
            Turn::Nobodys => None,
        }
    }

    /// Whether nobody sleeps, and no new sleep is taken.
    pub fn is_over(&self) -> bool
        ensures { IsTrue result ↔ ((self.now.is_closed ≡ true) × (sleepers self.now ≡ [])) }
    {
        self.is_closed && self.agenda.is_empty()
    }

    /// Closes the list: no new sleep is taken.
    pub fn close(&mut self)
        ensures { self.new ≡ record self.old { is_closed = true } }
    {
        self.is_closed = true;
    }
}

/// Marks the sleeper at this place, and answers its waker.
fn mark<K: Drop>(places: &mut Slab<Place<K>>, place: usize, mark: Place<K>) -> Option<K>
    ensures places { Updates places.old places.new place (marked mark (get places.old place)) }
    ensures waker { result ≡ waker_at (get places.old place) }
    ensures capacity { places.new.capacity ≡ places.old.capacity }
{
    match places.get_mut(place) {
        Some(place) => match mem::replace(place, mark) {
            Place::Asleep(waker) => waker,
            Place::Due | Place::Stopped => None,
        },
        None => None,
    }
}
