ghost use Rattle.std.specs.Arc.{arc_value};
ghost use Rattle.std.specs.Prelude.{◌≡◌, IfOk};

use crate::parts::{Refused, Turn, Woken};
use crate::place::Place;
use crate::table::Table;
use async_task::{NoMemory, Wake};
use futures::task::{Doorbell, Queue};
use std::alloc::{AllocGlobal, Global};
use std::io::{self, ErrorKind};
use std::random::RandomSource;
use std::sync::{Arc, Wait};

/// Where futures of the library's are awaited. One thread receives their wakes, and wakes who awaits them. The type of the wakers
/// is `K`.
///
/// Wakers are called and dropped with no lock held.
///
/// In `threads` of `kit_tests` one thread awaits 125 futures and drops each fifth. Another sends each of them a 3, and a third
/// receives the wakes:
///
/// ```
/// let bridge = Bridge::leak(rt, alloc)?;
/// let (senders, all) = channels(&*bridge, alloc, 125)?;
/// let awaits = || {
///     let sum = sum(rt, alloc, all);
///     bridge.close();
///     sum
/// };
/// let works = || thread::join(&rt, awaits, || send(senders));
/// let ((sum, ()), heard) = thread::join(&rt, works, || bridge.hear());
/// assert!(rt; (sum == 300) & heard.is_ok());
/// ```
#[derive(Drop)]
pub struct Bridge<K: Wake + Drop, R: Wait + Copy + Drop> {
    rt: R,
    alloc: Global,
    queue: Queue,
    table: Arc<Table<K>>,
}

impl<K: Wake + Drop, R: Wait + Copy + Drop> Bridge<K, R> {
    fn new(rt: R, alloc: Global) -> io::Result<Self>
    where
        R: RandomSource + AllocGlobal,
    {
        let queue = Queue::new(&rt, Doorbell::parking())?;
        Ok(Bridge {
            rt,
            alloc,
            queue,
            table: Arc::new(alloc, Table::new(alloc))?,
        })
    }

    /// Makes a bridge that lies there as long as the program runs. It takes memory, and the library's queue draws a number, by
    /// which wakers tell queues apart.
    pub fn leak<'r>(rt: R, alloc: Global) -> io::Result<&'r Self>
    where
        K: 'r,
        R: RandomSource + AllocGlobal + 'r,
    {
        let Ok(bridge) = Box::new(alloc, Bridge::new(rt, alloc)?) else {
            return Err(ErrorKind::OutOfMemory.into());
        };
        Ok(Box::leak(bridge))
    }

    /// Receives wakes on this thread until the bridge is closed, and sleeps between. For want of memory it receives none, and
    /// answers so at once: close the bridge then, so that who awaits is woken.
    pub fn hear(&'static self) -> Result<(), NoMemory> {
        let Ok(_hold) = self.queue.hold() else {
            return Err(NoMemory);
        };
        for _ in self.rt.forever() {
            if !self.turn() {
                return Ok(());
            }
        }
        unreachable!()
    }

    /// Waits for one wake, and wakes who awaits the future that was woken. False where the bridge is closed, or no future is there
    /// to wait for. It takes no memory.
    pub fn turn(&'static self) -> bool {
        let Some(cx) = self.queue.next(&self.rt) else {
            return false;
        };
        let woken = self.table.lock(&self.rt).wake(Turn::new(cx));
        match woken {
            Woken::Waited(owed) => owed.call(),
            Woken::Gone(turn) => drop(turn),
        }
        true
    }

    /// Closes the bridge: whoever awaits is woken and gets an error, `hear` returns, and nothing is awaited here any more. It
    /// takes no memory.
    pub fn close(&self) {
        let seats = self.table.lock(&self.rt).close(self.alloc);
        self.queue.shut_down();
        for seat in seats.values() {
            seat.call();
        }
    }

    /// Makes a seat for one more future, which is woken at once, so that it is polled.
    pub(crate) fn enter(&self) -> Result<Place<K, R>, Refused>
        ensures { IfOk result (λ place. arc_value place.table ≡ arc_value self.now.table) }
    {
        let Ok(table) = Arc::try_clone(&self.table) else {
            return Err(Refused::NoMemory);
        };
        let Ok(vacancy) = self.queue.add() else {
            return Err(Refused::NoMemory);
        };
        let entered = self.table.lock(&self.rt).enter(vacancy.task());
        match entered {
            Ok((ticket, before)) => {
                drop(before);
                vacancy.schedule();
                Ok(Place::new(self.rt, table, ticket))
            }
            Err(refused) => {
                vacancy.cancel();
                Err(refused)
            }
        }
    }
}
