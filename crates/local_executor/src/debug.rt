//! What the texts of executors show.
use crate::entry::Unlocked;
use crate::link::Link;
use crate::names::Tasks;
use solo::Kind;
use std::fmt;
use std::sync::Wait;

/// Stands in a text for a value under a lock that isn't free.
struct Locked;

impl fmt::Debug for Locked {
    fn fmt<O: fmt::Write>(&self, f: &mut fmt::Formatter<O>) -> fmt::Result {
        f.write_str("<locked>")
    }
}

/// The lengths of the runs' own queues, as a text shows them.
#[derive(Drop)]
pub struct LocalRunners<'a, W: Drop, R: Drop> {
    link: &'a Link<W, R>,
}

impl<W: Drop, R: Wait + Copy + Drop> LocalRunners<'_, W, R> {
    /// The length of the queue at this place of the list. The lock is taken for this read alone, since whoever writes the text may
    /// be a user's. Some(None) past the last, None where the lock isn't free.
    pub(crate) fn length_in(&self, at: usize, unlocked: &mut Unlocked) -> Option<Option<usize>> {
        match self.link.try_lock(unlocked) {
            Some(mut locked) => Some(locked.get().run_length(at)),
            None => None,
        }
    }
}

impl<W: Drop, R: Wait + Copy + Drop> fmt::Debug for LocalRunners<'_, W, R> {
    fn fmt<O: fmt::Write>(&self, f: &mut fmt::Formatter<O>) -> fmt::Result {
        let Some(first) = self.length_at(0) else {
            return f.write_str("<locked>");
        };
        let mut list = f.debug_list();
        let mut next = first;
        for at in 1..usize::MAX {
            let Some(length) = next else {
                return list.finish();
            };
            list.entry(&length);
            next = match self.length_at(at) {
                Some(length) => length,
                None => {
                    list.entry(&Locked);
                    None
                }
            };
        }
        list.finish()
    }
}

/// What was found under the lock.
#[derive(Clone, Copy)]
pub struct Counts {
    active: usize,
    queued: usize,
    sleepers: usize,
}

/// What an executor of this kind has. A static one has no wakers to be counted. None where the lock isn't free.
pub fn counts_of<W: Drop, R: Wait + Copy + Drop>(
    link: &Link<W, R>,
    kind: Kind,
    unlocked: &mut Unlocked,
) -> Option<Counts> {
    match link.try_lock(unlocked) {
        Some(mut locked) => Some(counts_in(locked.get(), kind)),
        None => None,
    }
}

fn counts_in<W>(tasks: &Tasks<W>, kind: Kind) -> Counts {
    let active = match kind {
        Kind::Owned => tasks.future_count(),
        Kind::Static => 0,
    };
    Counts {
        active,
        queued: tasks.queue_length(),
        sleepers: tasks.sleeper_count(),
    }
}

/// Writes what a handle of this name shows: whether its task is finished, where that could be read.
pub fn show_handle<O: fmt::Write>(
    name: &str,
    is_finished: Option<bool>,
    f: &mut fmt::Formatter<O>,
) -> fmt::Result {
    let mut text = f.debug_struct(name);
    match is_finished {
        Some(is_finished) => {
            text.field("is_finished", &is_finished);
        }
        None => {
            text.field("is_finished", &Locked);
        }
    };
    text.finish()
}

/// Writes what an executor of this name shows, with nothing locked: each look at the runs' queues takes the lock anew.
pub fn show<W: Drop, R: Wait + Copy + Drop, O: fmt::Write>(
    link: &Link<W, R>,
    name: &str,
    counts: Option<Counts>,
    f: &mut fmt::Formatter<O>,
) -> fmt::Result {
    let runners = LocalRunners { link };
    let mut text = f.debug_struct(name);
    match counts {
        Some(counts) => {
            text.field("active", &counts.active);
            text.field("global_tasks", &counts.queued);
            text.field("local_runners", &runners);
            text.field("sleepers", &counts.sleepers);
        }
        None => {
            text.field("active", &Locked);
            text.field("global_tasks", &Locked);
            text.field("local_runners", &runners);
            text.field("sleepers", &Locked);
        }
    };
    text.finish()
}
