//! What the text of an executor shows.
use crate::body::Body;
use crate::deeds::queues::{Queue, Queues};
use crate::entry::Unlocked;
use crate::locks::ReadWrite;
use crate::names::TableWaker;
use crate::own_queues::OwnQueues;
use async_task::{Output, OutsideWaker, Runtime};
use executor_parts::Places;
use std::alloc::Global;
use std::fmt;
use std::sync::{Arc, Wait};

/// Stands in a text for a value under a lock that isn't free.
struct Locked;

impl fmt::Debug for Locked {
    fn fmt<O: fmt::Write>(&self, f: &mut fmt::Formatter<O>) -> fmt::Result {
        f.write_str("<locked>")
    }
}

/// The lengths of the runs' own queues, as a text shows them.
#[derive(Drop)]
pub struct LocalRunners<'a, R> {
    rt: R,
    queues: &'a ReadWrite<OwnQueues<Arc<Queue, Global>>>,
}

impl<R: Wait> LocalRunners<'_, R> {
    /// The length of the queue at this place of the list. The lock is taken for this read alone, since whoever writes the text may
    /// be a user's. Some(None) past the last, None where the lock isn't free.
    pub(crate) fn length_in(&self, at: usize, unlocked: &mut Unlocked) -> Option<Option<usize>> {
        match self.queues.try_read(unlocked) {
            Some(reading) => match reading.get().all().get(at) {
                Some(listed) => Some(Some(listed.queue.len(&self.rt))),
                None => Some(None),
            },
            None => None,
        }
    }
}

impl<R: Wait> fmt::Debug for LocalRunners<'_, R> {
    fn fmt<O: fmt::Write>(&self, f: &mut fmt::Formatter<O>) -> fmt::Result {
        let Some(first) = self.length_at(0) else {
            return f.write_str("<locked>");
        };
        let mut list = f.debug_list();
        let mut next = first;
        for at in 1..usize::MAX {
            let Some(length) = next else {
                return list.finish();
            };
            list.entry(&length);
            next = match self.length_at(at) {
                Some(length) => length,
                None => {
                    list.entry(&Locked);
                    None
                }
            };
        }
        list.finish()
    }
}

impl<F: Drop, T: Output, W: OutsideWaker, R: Runtime> Body<F, T, W, R> {
    /// Writes what an executor of this name shows.
    pub(crate) fn show<O: fmt::Write>(
        &self,
        name: &str,
        f: &mut fmt::Formatter<O>,
        unlocked: &mut Unlocked,
    ) -> fmt::Result {
        let active = match self.table.try_lock(unlocked) {
            Some(mut table) => Some(self.wakers_of(table.get())),
            None => None,
        };
        let sleepers = match self.state.sleepers.try_lock(unlocked) {
            Some(mut sleepers) => Some(sleepers.get().count()),
            None => None,
        };
        let mut text = f.debug_struct(name);
        match active {
            Some(active) => text.field("active", &active),
            None => text.field("active", &Locked),
        };
        text.field("global_tasks", &queued(&self.rt, &self.state.queues));
        text.field(
            "local_runners",
            &LocalRunners {
                rt: self.rt,
                queues: &self.state.own_queues,
            },
        );
        match sleepers {
            Some(sleepers) => text.field("sleepers", &sleepers),
            None => text.field("sleepers", &Locked),
        };
        text.finish()
    }

    /// How many wakers its table has: one of each future, and none where it is static.
    fn wakers_of(&self, table: &Places<F, TableWaker>) -> usize {
        if self.is_static { 0 } else { table.len() }
    }
}

/// How many Runnables stand in both queues.
fn queued<R: Wait>(rt: &R, queues: &Queues) -> usize {
    queues.urgent.len(rt).saturating_add(queues.plain.len(rt))
}
