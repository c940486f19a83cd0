ghost use Rattle.std.specs.Prelude.{◌≡◌};

use crate::places::Places;
use crate::rooms::Room;
use async_task::{Future, Poll};
use std::sync::Wait;

/// A future that a queue has accepted. It has room there until it is dropped, so that there is always a place for its task
/// when that is to be run.
pub struct Accepted<F: Drop, R: Wait + Copy + Drop> {
    future: F,
    room: Room,
    places: &'static Places,
    rt: R,
}

impl<F: Drop, R: Wait + Copy + Drop> Accepted<F, R> {
    pub(crate) fn new(rt: R, places: &'static Places, room: Room, future: F) -> Self
        ensures { result.future ≡ future }
    {
        Accepted {
            future,
            room,
            places,
            rt,
        }
    }

    /// The future, whose room is given back: its task was not made.
    pub(crate) fn refuse(self) -> F
        ensures { result ≡ self.future }
    {
        let Accepted {
            future,
            room,
            places,
            rt,
        } = self;
        places.give_back(&rt, room);
        future
    }
}

impl<K, F: Future<K> + Drop, R: Wait + Copy + Drop> Future<K> for Accepted<F, R> {
    type Output = F::Output;

    fn poll(&mut self, waker: &K) -> Poll<F::Output> {
        self.future.poll(waker)
    }
}

impl<F: Drop, R: Wait + Copy + Drop> Drop for Accepted<F, R> {
    /// 1. Drops the future.
    /// 2. Gives its room back, under a lock that is taken after that.
    fn drop(self) {
        let Accepted {
            future,
            room,
            places,
            rt,
        } = self;
        drop(future);
        places.give_back(&rt, room);
    }
}
