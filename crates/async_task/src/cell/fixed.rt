//! What never changes of a task, in its cell. A reader has a claim meanwhile, for which nobody waits. A call that empties the cell
//! marks it, so that no more claims are made. The last that leaves it takes it out. It is the schedule value and the metadata.
ghost use Rattle.std.specs.Prelude.{◌≡◌, ◌%◌, ◌<◌, IfSome};
ghost use Rattle.counted_slot.specs.Counting.{readers};
ghost use Rattle.async_task.specs.Slots.{CanRead};

use counted_slot::{Claim, Counted, FREE, Fits, MARKED, MOST_READERS, ONE_READER, PRESENT, TAKEN};
use std::sync::Wait;

/// What never changes of a task.
#[derive(Drop)]
pub(crate) struct Fixed<S, M> {
    pub schedule: S,
    pub metadata: M,
}

impl<S, M> Fits for Fixed<S, M> {
    type Tag = ();

    ghost fits = { λ _ _. Unit {0} };
}

/// The place of it: present while a task is there, marked while such a task is over and still read, and else free.
pub(crate) type Slot<S, M> = Counted<Option<Fixed<S, M>>>;

/// A claim on it.
pub(crate) type Claimed<'c, S, M> = Claim<'c, Option<Fixed<S, M>>>;

/// No task's.
pub(crate) fn no_task_s<S: Drop, M: Drop>() -> Slot<S, M> {
    Counted::new(None, &())
}

#[inline(always)]
fn state_of(word: u64) -> u64
    ensures { result ≡ word % 4 }
{
    word % 4
}

#[inline(always)]
fn reader_count(word: u64) -> u64
    ensures { result ≡ readers word }
{
    word % 0x1_0000_0000 / 4
}

/// A claim to read, where a task is there.
#[inline(always)]
pub(crate) fn claim<'c, S: Drop, M: Drop, R: Wait>(
    rt: &R,
    slot: &'c Slot<S, M>,
) -> Option<Claimed<'c, S, M>>
    ensures { IfSome result CanRead }
{
    let mut seen = PRESENT;
    for _ in rt.forever() {
        if state_of(seen) != PRESENT {
            return None;
        }
        if reader_count(seen) == MOST_READERS {
            seen = slot.load();
            continue;
        }
        let (found, claim) = slot.turn(seen, seen + ONE_READER);
        if found == seen {
            if claim.get().is_some() {
                return Some(claim);
            }
            // It is: that there is a value where the word is present no clause of the slot can say.
            claim.leave();
        } else {
            claim.done();
        }
        seen = found;
    }
    unreachable!()
}

/// A claim to read, of a task that is there.
#[inline(always)]
pub(crate) fn claim_present<'c, S: Drop, M: Drop, R: Wait>(
    rt: &R,
    slot: &'c Slot<S, M>,
) -> Claimed<'c, S, M>
    ensures { CanRead result }
{
    for _ in rt.forever() {
        // It is there at once: that the word is present while a token of the task is at hand no clause of the slot can
        // say.
        if let Some(claim) = claim(rt, slot) {
            return claim;
        }
    }
    unreachable!()
}

/// What is read.
#[inline(always)]
pub(crate) fn read<'a, S: Drop, M: Drop>(claim: &'a Claimed<'_, S, M>) -> &'a Fixed<S, M>
    requires { CanRead claim.now }
{
    match claim.get() {
        Some(fixed) => fixed,
        None => unreachable!(),
    }
}

/// Ends a read. True where it was the last of a task that is over: what was there is dropped then.
#[inline(always)]
pub(crate) fn leave<S: Drop, M: Drop>(slot: &Slot<S, M>, claim: Claimed<'_, S, M>) -> bool
    requires { claim.right ≡ 1 }
{
    claim.leave() == MARKED + ONE_READER && clear(slot, MARKED)
}

/// The task is over. True where nobody reads any more: what was there is dropped then.
#[inline(always)]
pub(crate) fn end<S: Drop, M: Drop, R: Wait>(rt: &R, slot: &Slot<S, M>) -> bool {
    let mut seen = PRESENT;
    for _ in rt.forever() {
        if seen == PRESENT {
            if clear(slot, PRESENT) {
                return true;
            }
        } else if state_of(seen) == PRESENT {
            let (found, claim) = slot.turn(seen, seen - PRESENT + MARKED);
            claim.done();
            if found == seen {
                return false;
            }
        }
        // That it is present while its task isn't ended no clause of the slot can say: were it not, this would wait.
        seen = slot.load();
    }
    unreachable!()
}

/// Drops what is there, where nobody reads it.
#[inline(always)]
fn clear<S: Drop, M: Drop>(slot: &Slot<S, M>, seen: u64) -> bool
    requires { (seen % 4 < 3) × (readers seen ≡ 0) }
{
    let (found, claim) = slot.turn(seen, TAKEN);
    if found != seen {
        claim.done();
        return false;
    }
    drop(claim.put(None, FREE));
    true
}
