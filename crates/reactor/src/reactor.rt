ghost use Rattle.std.specs.Arc.{arc_value};
ghost use Rattle.std.specs.Prelude.{◌≡◌, IfOk};

use crate::errors::SourceError;
use crate::lane::Lanes;
use crate::parts::{Owed, Refused};
use crate::poller::{Heard, Poller, Way};
use crate::source::Source;
use crate::table::Table;
use async_task::{NoMemory, Wake};
use std::alloc::Global;
use std::io::{self, ErrorKind};
use std::sync::{Arc, Wait};
use std::time::Duration;

/// The sources and their waiters. One thread drives it, with a poller. The type of the wakers is `K`.
///
/// Wakers are called and dropped with no lock held.
#[derive(Drop)]
pub struct Reactor<K: Wake + Drop, R: Wait + Copy + Drop> {
    rt: R,
    alloc: Global,
    table: Arc<Table<K>>,
}

impl<K: Wake + Drop, R: Wait + Copy + Drop> Reactor<K, R> {
    /// Makes a reactor without sources.
    pub fn new(rt: R, alloc: Global) -> Result<Self, NoMemory> {
        match Arc::new(alloc, Table::new(alloc)) {
            Ok(table) => Ok(Reactor { rt, alloc, table }),
            Err(_) => Err(NoMemory),
        }
    }

    /// Makes another handle of the same reactor, to ask for sources; refused where it has too many already. Takes no memory.
    pub fn clone(&self) -> Result<Self, NoMemory>
        ensures same { IfOk result (λ reactor. arc_value reactor.table ≡ arc_value self.now.table) }
    {
        match Arc::try_clone(&self.table) {
            Ok(table) => Ok(Reactor {
                rt: self.rt,
                alloc: self.alloc,
                table,
            }),
            Err(_) => Err(NoMemory),
        }
    }

    /// Makes a source, which is ready each way until a read or a write would block. Register it with the poller under its
    /// key. It takes memory for its ways and its place.
    pub fn source(&self) -> Result<Source<K, R>, SourceError>
        ensures here { IfOk result (λ source. arc_value source.table ≡ arc_value self.now.table) }
    {
        let Ok(lanes) = Arc::new(self.alloc, Lanes::new()) else {
            return Err(SourceError::NoMemory);
        };
        let (Ok(same), Ok(table)) = (Arc::try_clone(&lanes), Arc::try_clone(&self.table)) else {
            return Err(SourceError::NoMemory);
        };
        let entered = self.table.lock(&self.rt).enter(same);
        match entered {
            Ok(key) => Ok(Source::new(self.rt, table, lanes, key)),
            Err(Refused::Closed(_same)) => Err(SourceError::Closed),
            Err(Refused::NoMemory(_same)) => Err(SourceError::NoMemory),
        }
    }

    /// Waits once for the poller, at most this long, and wakes the waiters of the events. None is without end. Answers whether the
    /// reactor is open: a closed one doesn't wait. It takes no memory.
    ///
    /// A wait that was interrupted counts as one without events. Where the poller fails, the waiters of all events before the
    /// error are woken.
    pub fn turn<P: Poller>(&self, poller: &mut P, longest: Option<Duration>) -> io::Result<bool> {
        if self.table.lock(&self.rt).is_closed() {
            return Ok(false);
        }
        let waited = poller.wait(longest);
        for _ in 0..u64::MAX {
            match poller.heard() {
                Some(heard) => self.tell(heard),
                None => break,
            }
        }
        match waited {
            Err(error) if error.kind() != ErrorKind::Interrupted => Err(error),
            _ => Ok(true),
        }
    }

    /// Drives the reactor on this thread, until it is closed and its poller rung, or the poller fails. Before each wait it asks
    /// how long that may take: as long as a timer's `turn` says, so that one thread drives both. Where it fails, close the
    /// reactor, so that waiters are woken.
    pub fn drive<P: Poller, F: FnMut() -> Option<Duration>>(
        &self,
        poller: &mut P,
        mut longest: F,
    ) -> io::Result<()>
        requires { F.IsAlwaysCallable longest }
    {
        for _ in self.rt.forever() {
            if !self.turn(poller, longest())? {
                return Ok(());
            }
        }
        unreachable!()
    }

    /// Sets the flags for the events, under the locks, and then wakes the waiters, with no lock held.
    fn tell(&self, heard: Heard) {
        let table = self.table.lock(&self.rt);
        let (readers, writers) = match table.get(heard.key) {
            Some(lanes) => (
                ring(
                    &self.rt,
                    &**lanes,
                    Way::Read,
                    heard.is_readable,
                    heard.is_read_closed,
                ),
                ring(
                    &self.rt,
                    &**lanes,
                    Way::Write,
                    heard.is_writable,
                    heard.is_write_closed,
                ),
            ),
            None => (None, None),
        };
        drop(table);
        call(readers);
        call(writers);
    }

    /// Closes the reactor: all waiters are woken, and their next poll answers that it is closed; no source can be made any more.
    /// Ring the poller then, so that `drive` returns. It takes no memory.
    pub fn close(&self) {
        let entries = self.table.lock(&self.rt).close(self.alloc);
        for lanes in entries.values() {
            let reader = lanes.of(Way::Read).lock(&self.rt).close();
            reader.call();
            let writer = lanes.of(Way::Write).lock(&self.rt).close();
            writer.call();
        }
    }
}

fn ring<K: Wake + Drop, R: Wait>(
    rt: &R,
    lanes: &Lanes<K>,
    way: Way,
    is_ready: bool,
    is_closed: bool,
) -> Option<Owed<K>> {
    if is_closed {
        Some(lanes.of(way).lock(rt).end())
    } else if is_ready {
        Some(lanes.of(way).lock(rt).ring())
    } else {
        None
    }
}

fn call<K: Wake>(owed: Option<Owed<K>>) {
    if let Some(owed) = owed {
        owed.call();
    }
}
