ghost use Rattle.std.specs.Prelude.{◌≡◌};

use crate::errors::ReactorClosed;
use crate::guard::ReadyGuard;
use crate::lane::Lanes;
use crate::parts::{Checked, Key, Looked};
use crate::poller::Way;
use crate::table::Table;
use async_task::{Poll, Wake};
use std::sync::{Arc, Wait};

/// A source that a future reads from or writes to. It has two ways, each of which is ready until a read or a write would
/// block, and again from the next event on. Register it with the poller under its key, by the edge, and let the poller forget it
/// before it is dropped. Dropped, it leaves the reactor.
pub struct Source<K: Wake + Drop, R: Wait + Copy + Drop> {
    rt: R,
    table: Arc<Table<K>>,
    lanes: Arc<Lanes<K>>,
    key: Key,
}

impl<K: Wake + Drop, R: Wait + Copy + Drop> Source<K, R> {
    ghost use Rattle.std.specs.Arc.{arc_value};
    ghost use Rattle.reactor.specs.Lanes.{IsOfWay};

    pub(crate) fn new(rt: R, table: Arc<Table<K>>, lanes: Arc<Lanes<K>>, key: Key) -> Self
        ensures table { result.table ≡ table }
        ensures lanes { result.lanes ≡ lanes }
        ensures key { result.key ≡ key }
    {
        Source {
            rt,
            table,
            lanes,
            key,
        }
    }

    /// The key under which the poller has to know it. No other source of its reactor has this key, before or after, and none has
    /// 2^64 - 1.
    pub fn key(&self) -> usize
        ensures { result ≡ self.now.key.number }
    {
        self.key.number()
    }

    /// Whether this way is ready, or the reactor closed. Where neither holds, leaves the waker in the place of the one that
    /// the last poll of this way left. Of two tasks that poll one way only the later is woken. Where no copy of the
    /// waker can be had it calls the waker, so that it is polled again. It takes no memory.
    ///
    /// 1. Looks whether the way is ready, under its lock.
    /// 2. Where it isn't, takes a copy of the waker with no lock held, looks again, and leaves it.
    /// 3. Drops the waker that was left before, with no lock held.
    pub fn poll_ready(
        &self,
        way: Way,
        waker: &K,
    ) -> Poll<Result<ReadyGuard<'_, K, R>, ReactorClosed>>
        ensures { IsOfWay way (arc_value self.now.lanes) result }
    {
        let lane = self.lanes.of(way);
        let checked = lane.lock(&self.rt).check();
        match checked {
            Checked::Ready(ready) => {
                return Poll::Ready(Ok(ReadyGuard::new(self.rt, lane, ready)));
            }
            Checked::Closed(over) => return Poll::Ready(Err(ReactorClosed::new(over))),
            Checked::Blocked => {}
        }
        let Some(copy) = waker.clone() else {
            waker.wake_by_ref();
            return Poll::Pending;
        };
        let looked = lane.lock(&self.rt).look(copy);
        match looked {
            Looked::Ready(ready, _copy) => Poll::Ready(Ok(ReadyGuard::new(self.rt, lane, ready))),
            Looked::Closed(over, _copy) => Poll::Ready(Err(ReactorClosed::new(over))),
            Looked::Waits(_parked, _before) => Poll::Pending,
        }
    }
}

impl<K: Wake + Drop, R: Wait + Copy + Drop> Drop for Source<K, R> {
    fn drop(self) {
        let Source {
            rt,
            table,
            lanes,
            key,
        } = self;
        let same = table.lock(&rt).leave(key);
        drop(same);
        drop(lanes);
    }
}
