//! How an executor ends.
use crate::entry::Unlocked;
use crate::foreign::{Foreign, let_go};
use crate::futures::Left;
use crate::link::Link;
use crate::names::Futures;
use crate::{futures, sections};
use async_task::Wake;
use executor_parts::EntryPlace;
use solo::Owed;
use std::sync::Wait;

/// Ends an executor.
///
/// 1. Takes all its futures from its tasks, and drops each, in the order of acceptance.
/// 2. Wakes each of their tasks, in that order: it is queued, or was before.
/// 3. Closes the queue, and closes each task in it: its awaiter is called.
pub fn end<F: Drop, T: Drop, W: Wake + Drop, R: Wait + Copy + Drop>(
    link: Link<W, R>,
    futures: Futures<F, T>,
    unlocked: &mut Unlocked,
) {
    let mut futures = futures;
    sections::close(link.lock(unlocked).get());
    for _ in link.rt().forever() {
        let drained = sections::drain(link.lock(unlocked).get());
        let Some(owed) = drained else {
            return;
        };
        end_one(&link, &mut futures, owed, unlocked);
    }
    unreachable!()
}

/// Leaks an executor: it counts no wakers of its own any more. Each that it counted is called, in the order of acceptance. So its
/// task is queued, or was before. It takes no memory.
pub fn leak<W: Wake + Drop, R: Wait + Copy + Drop>(link: &Link<W, R>, unlocked: &mut Unlocked) {
    sections::leak(link.lock(unlocked).get());
    for _ in link.rt().forever() {
        let woken = sections::leak_next(link.lock(unlocked).get());
        let Some(told) = woken else {
            return;
        };
        link.pay_told(told, unlocked);
    }
    unreachable!()
}

/// Does what one step of the end leaves to be done.
fn end_one<F: Drop, T: Drop, W: Wake + Drop, R: Wait + Copy + Drop>(
    link: &Link<W, R>,
    futures: &mut Futures<F, T>,
    owed: Owed<EntryPlace, (), Foreign<W>>,
    unlocked: &mut Unlocked,
) {
    if let Some(place) = owed.future {
        drop_at(futures, place, unlocked);
    }
    if let Some(lent) = link.pay(owed, unlocked) {
        let owed = sections::finish(link.lock(unlocked).get(), lent);
        link.pay_all(owed, unlocked);
    }
}

/// Drops the future at a place.
fn drop_at<F: Drop, T: Drop>(futures: &mut Futures<F, T>, place: EntryPlace, unlocked: &Unlocked) {
    if let Some(Left { future, output }) = futures::leave(futures, place) {
        let_go(future, unlocked);
        let_go(output.take(), unlocked);
    }
}
