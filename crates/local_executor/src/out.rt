//! What the calls of `Solo` answer, as it comes out from under the lock: the same, with each value of a user's as a `Foreign`.
ghost use Rattle.std.specs.Prelude.{◌≡◌};

use crate::foreign::{Foreign, came_out};
use executor_parts::EntryPlace;
use solo::{Dropped, Owed, Polled, Ran, SoloWaker, Taken, Ticked, Told};

/// A waker that comes out.
#[inline(always)]
pub fn waker_out<W>(waker: SoloWaker<W>) -> SoloWaker<Foreign<W>>
    ensures { result ≡ waker }
{
    match waker {
        SoloWaker::Task(task) => SoloWaker::Task(task),
        SoloWaker::Outside(waker) => SoloWaker::Outside(Foreign::of(waker)),
    }
}

/// A waker that is put under the lock.
#[inline(always)]
pub fn waker_in<W>(waker: SoloWaker<Foreign<W>>) -> SoloWaker<W>
    ensures { result ≡ waker }
{
    match waker {
        SoloWaker::Task(task) => SoloWaker::Task(task),
        SoloWaker::Outside(waker) => SoloWaker::Outside(waker.into_stored()),
    }
}

/// A waker that comes out, where one does.
#[inline(always)]
pub fn if_waker_out<W>(waker: Option<SoloWaker<W>>) -> Option<SoloWaker<Foreign<W>>>
    ensures { result ≡ waker }
{
    match waker {
        Some(waker) => Some(waker_out(waker)),
        None => None,
    }
}

/// The answer of a queueing.
#[inline(always)]
pub fn told_out<W>(told: Told<W>) -> Told<Foreign<W>>
    ensures { result ≡ told }
{
    let Told { sleeper, returned } = told;
    Told {
        sleeper: came_out(sleeper),
        returned,
    }
}

/// The answer of a tick's end.
pub fn dropped_out<W>(dropped: Dropped<W>) -> Dropped<Foreign<W>>
    ensures { result ≡ dropped }
{
    let Dropped { old, told } = dropped;
    Dropped {
        old: came_out(old),
        told: told_out(told),
    }
}

/// The answer of a take.
#[inline(always)]
pub fn taken_out<W>(taken: Taken<EntryPlace, W>) -> Taken<EntryPlace, Foreign<W>>
    ensures { result ≡ taken }
{
    let Taken { found, sleeper } = taken;
    Taken {
        found,
        sleeper: came_out(sleeper),
    }
}

/// The answer of a tick's look.
pub fn ticked_out<W>(ticked: Ticked<EntryPlace, W>) -> Ticked<EntryPlace, Foreign<W>>
    ensures { result ≡ ticked }
{
    let Ticked {
        ticker,
        look,
        sleeper,
        old,
        spare,
        returned,
    } = ticked;
    Ticked {
        ticker,
        look,
        sleeper: came_out(sleeper),
        old: came_out(old),
        spare: if_waker_out(spare),
        returned,
    }
}

/// The answer of a run's look.
pub fn ran_out<W>(ran: Ran<EntryPlace, W>) -> Ran<EntryPlace, Foreign<W>>
    ensures { result ≡ ran }
{
    let Ran {
        ticked,
        gives_way,
        has_walked,
    } = ran;
    Ran {
        ticked: ticked_out(ticked),
        gives_way,
        has_walked,
    }
}

/// The answer of a call on a task.
#[inline(always)]
pub fn owed_out<W>(owed: Owed<EntryPlace, (), W>) -> Owed<EntryPlace, (), Foreign<W>>
    ensures { result ≡ owed }
{
    let Owed {
        future,
        rest,
        output,
        awaiter,
        sleeper,
        old,
        returned,
    } = owed;
    Owed {
        future,
        rest,
        output,
        awaiter: if_waker_out(awaiter),
        sleeper: came_out(sleeper),
        old: if_waker_out(old),
        returned,
    }
}

/// The answer of a handle's poll.
pub fn polled_out<W>(polled: Polled<(), SoloWaker<W>>) -> Polled<(), SoloWaker<Foreign<W>>>
    ensures { result ≡ polled }
{
    match polled {
        Polled::Output { output, spare } => Polled::Output {
            output,
            spare: waker_out(spare),
        },
        Polled::Closed { spare } => Polled::Closed {
            spare: waker_out(spare),
        },
        Polled::Pending { replaced } => Polled::Pending {
            replaced: if_waker_out(replaced),
        },
    }
}
