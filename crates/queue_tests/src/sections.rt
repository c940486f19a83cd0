//! What stands under a timer's lock, in each order of the sections of a driver, of who sleeps and drops, and of who closes and stops,
//! on one thread: each call answers what a model of one line a sleeper says.
use std::alloc::Global;
use std::mem;
use std::test::Fail;
use std::time::Duration;
use timer::parts::{Deadlines, Entry, Looked, Next};

/// A section of one party.
#[derive(Clone, Copy)]
enum Section {
    /// Enters, due so many nanoseconds from the start.
    Enter(u64),
    /// Looks, and leaves this waker.
    Look(u64),
    Leave,
    /// A driver tells who is due by now.
    Tell(u64),
    Close,
    Dismiss,
}

/// Where one who sleeps is.
#[derive(Clone, Copy, PartialEq, Eq)]
enum At {
    Out,
    Asleep,
    Due,
    Stopped,
}

/// One who sleeps, and what the model says of it.
struct Sleeper {
    entry: Option<Entry>,
    at: At,
    due: u64,
    waker: Option<u64>,
}

impl Sleeper {
    fn out() -> Self {
        Sleeper {
            entry: None,
            at: At::Out,
            due: 0,
            waker: None,
        }
    }

    /// Whether it is due before the other, or the other doesn't sleep.
    fn is_before(&self, other: &Sleeper) -> bool {
        other.at != At::Asleep || self.due < other.due
    }

    /// It is marked, and its waker comes out.
    fn is_told(&mut self, at: At) -> Option<u64> {
        self.at = at;
        self.waker.take()
    }

    fn enter(&mut self, deadlines: &mut Deadlines<u64>, due: u64, is_closed: bool) -> bool {
        match deadlines.enter(Duration::from_nanos(due)) {
            Ok(entry) => {
                if let Some(other) = mem::replace(&mut self.entry, Some(entry)) {
                    deadlines.leave(other);
                    return false;
                }
                self.at = At::Asleep;
                self.due = due;
                !is_closed
            }
            Err(_) => is_closed,
        }
    }

    fn look(&mut self, deadlines: &mut Deadlines<u64>, waker: u64) -> bool {
        let Some(entry) = self.entry.take() else {
            return self.at == At::Out;
        };
        let was = self.at;
        match deadlines.look(entry, Some(waker)) {
            Looked::Sleeps(entry, before) => {
                if let Some(other) = mem::replace(&mut self.entry, Some(entry)) {
                    deadlines.leave(other);
                }
                was == At::Asleep && before == mem::replace(&mut self.waker, Some(waker))
            }
            Looked::Due(back) => {
                self.at = At::Out;
                was == At::Due && back == Some(waker)
            }
            Looked::Stopped(back) => {
                self.at = At::Out;
                was == At::Stopped && back == Some(waker)
            }
        }
    }

    fn leave(&mut self, deadlines: &mut Deadlines<u64>) -> bool {
        let Some(entry) = self.entry.take() else {
            return self.at == At::Out;
        };
        let left = deadlines.leave(entry);
        let want = self.waker.take();
        let was = mem::replace(&mut self.at, At::Out);
        left == want && was != At::Out
    }

    /// Leaves, if it still has a place.
    fn ends(self, deadlines: &mut Deadlines<u64>) -> bool {
        let Sleeper {
            entry,
            at,
            due: _,
            waker,
        } = self;
        match entry {
            Some(entry) => deadlines.leave(entry) == waker && at != At::Out,
            None => at == At::Out,
        }
    }
}

/// A section of who sleeps; that of another party is none.
fn sleep(
    sleeper: &mut Sleeper,
    deadlines: &mut Deadlines<u64>,
    section: Section,
    is_closed: bool,
) -> bool {
    match section {
        Section::Enter(due) => sleeper.enter(deadlines, due, is_closed),
        Section::Look(waker) => sleeper.look(deadlines, waker),
        Section::Leave => sleeper.leave(deadlines),
        Section::Tell(_) | Section::Close | Section::Dismiss => false,
    }
}

/// Whether a driver's answer is that of the model, where this one is due first of both.
fn tells(first: &mut Sleeper, next: Next<u64>, now: u64, is_closed: bool) -> bool {
    let sleeps = first.at == At::Asleep;
    match next {
        Next::Told(waker) => { sleeps && first.due <= now && waker == first.is_told(At::Due) }
        Next::In(rest) => {
            sleeps
                && u128::from(now).saturating_add(rest) == u128::from(first.due)
                && now < first.due
        }
        Next::Nobody => !sleeps && !is_closed,
        Next::Closed => !sleeps && is_closed,
    }
}

/// A section of a driver, or of who closes and stops. The first of these two is due first, if one sleeps.
fn drive(
    first: &mut Sleeper,
    deadlines: &mut Deadlines<u64>,
    section: Section,
    is_closed: &mut bool,
) -> bool {
    match section {
        Section::Tell(now) => {
            let next = deadlines.tell(Duration::from_nanos(now));
            tells(first, next, now, *is_closed)
        }
        Section::Close => {
            deadlines.close();
            *is_closed = true;
            deadlines.is_over() == (first.at != At::Asleep)
        }
        Section::Dismiss => match deadlines.dismiss() {
            Some(waker) => first.at == At::Asleep && waker == first.is_told(At::Stopped),
            None => first.at != At::Asleep,
        },
        Section::Enter(_) | Section::Look(_) | Section::Leave => false,
    }
}

/// What each of three parties does: two who sleep, and one who drives or closes.
#[derive(Clone, Copy)]
struct Parties<'a> {
    one: &'a [Section],
    other: &'a [Section],
    driver: &'a [Section],
}

/// The parties' sections in the order of these digits, each of which says who is next of those who have a section left. Whether each
/// answered what the model says.
fn plays(alloc: Global, parties: &Parties<'_>, mut digits: u64) -> bool {
    let Ok(mut deadlines) = Deadlines::with_room(alloc, 2) else {
        return false;
    };
    let (mut one, mut other) = (Sleeper::out(), Sleeper::out());
    let mut is_closed = false;
    let mut is_well = true;
    let (mut ones, mut others, mut drives) = (
        parties.one.iter(),
        parties.other.iter(),
        parties.driver.iter(),
    );
    for _ in 0..10u64 {
        let digit = digits % 3;
        digits /= 3;
        is_well &= match digit {
            0 => match ones.next() {
                Some(section) => sleep(&mut one, &mut deadlines, *section, is_closed),
                None => true,
            },
            1 => match others.next() {
                Some(section) => sleep(&mut other, &mut deadlines, *section, is_closed),
                None => true,
            },
            _ => match drives.next() {
                Some(section) if one.at == At::Asleep && one.is_before(&other) => {
                    drive(&mut one, &mut deadlines, *section, &mut is_closed)
                }
                Some(section) => drive(&mut other, &mut deadlines, *section, &mut is_closed),
                None => true,
            },
        };
    }
    is_well &= one.ends(&mut deadlines);
    is_well &= other.ends(&mut deadlines);
    deadlines.close();
    is_well && deadlines.is_over()
}

/// Whether each order of their sections is well. Ten digits have each order of ten sections in them.
fn all_play(alloc: Global, parties: &Parties<'_>) -> bool {
    let mut is_well = true;
    for digits in 0..59_049u64 {
        is_well &= plays(alloc, parties, digits);
    }
    is_well
}

#[test]
fn each_order_of_sections_is_as_the_model_says(rt: HostRuntime) -> Result<(), Fail> {
    let drivers = [
        [
            Section::Tell(4),
            Section::Tell(7),
            Section::Tell(12),
            Section::Tell(12),
        ],
        [
            Section::Tell(7),
            Section::Close,
            Section::Tell(12),
            Section::Dismiss,
        ],
        [
            Section::Close,
            Section::Dismiss,
            Section::Dismiss,
            Section::Tell(12),
        ],
        [
            Section::Dismiss,
            Section::Tell(12),
            Section::Close,
            Section::Dismiss,
        ],
    ];
    for driver in drivers.iter() {
        let parties = Parties {
            one: &[Section::Enter(10), Section::Look(1), Section::Look(2)],
            other: &[Section::Enter(5), Section::Look(3), Section::Leave],
            driver: driver.as_slice(),
        };
        assert!(rt; all_play(rt.alloc(), &parties));
    }
    Ok(())
}
