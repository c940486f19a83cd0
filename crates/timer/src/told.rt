//! The sleepers that are woken by one section of a timer's lock.
use crate::deadlines::{Deadlines, Next};
use crate::timer::Turned;
use async_task::Wake;
use std::alloc::{AllocError, Global};
use std::time::Duration;

/// How many are marked in one section at most, beside the first, so that others get the lock between sections.
const AT_ONCE: usize = 32;

/// Room for wakers that come out of one section.
pub type Room<K> = Vec<Option<K>>;

/// The wakers that came out of one section, to be called after it: the first, and as many more as there is room for.
#[derive(Drop)]
pub struct Told<K> {
    first: Option<K>,
    others: Option<Room<K>>,
}

/// Takes memory for the wakers of one section of a timer with this many sleepers.
pub fn room_of<K: Drop>(alloc: Global, sleepers: usize) -> Result<Room<K>, AllocError> {
    let count = sleepers.min(AT_ONCE);
    let mut room = Vec::with_capacity(alloc, count)?;
    for _ in 0..count {
        room.push(None)?;
    }
    Ok(room)
}

impl<K: Drop> Told<K> {
    /// Uses this room, where another driver doesn't have it.
    pub fn with_room(room: Option<Room<K>>) -> Self {
        Told {
            first: None,
            others: room,
        }
    }

    /// Gives back the room, which is empty again.
    pub fn into_room(self) -> Option<Room<K>> {
        self.others
    }

    /// Marks the sleepers that are due by now, as many as there is room for their wakers. Answers when a driver has to look again;
    /// where more may be due, `Turned::In` of no time.
    pub fn tell(&mut self, deadlines: &mut Deadlines<K>, passed: Duration) -> Turned {
        match deadlines.tell(passed) {
            Next::Told(waker) => self.first = waker,
            next => return turned(next),
        }
        if let Some(room) = &mut self.others {
            for place in room.iter_mut() {
                match deadlines.tell(passed) {
                    Next::Told(waker) => *place = waker,
                    next => return turned(next),
                }
            }
        }
        Turned::In(Duration::ZERO)
    }

    /// Marks sleepers as stopped, as many as there is room for their wakers. Answers whether nobody is left.
    pub fn dismiss(&mut self, deadlines: &mut Deadlines<K>) -> bool {
        match deadlines.dismiss() {
            Some(waker) => self.first = waker,
            None => return true,
        }
        if let Some(room) = &mut self.others {
            for place in room.iter_mut() {
                match deadlines.dismiss() {
                    Some(waker) => *place = waker,
                    None => return true,
                }
            }
        }
        false
    }
}

impl<K: Wake + Drop> Told<K> {
    /// Calls each waker, in the order in which the sleepers were marked.
    pub fn call(&mut self) {
        if let Some(waker) = self.first.take() {
            waker.wake();
        }
        if let Some(room) = &mut self.others {
            for place in room.iter_mut() {
                if let Some(waker) = place.take() {
                    waker.wake();
                }
            }
        }
    }
}

/// What a driver's turn answers where this turn wakes nobody.
fn turned<K: Drop>(next: Next<K>) -> Turned {
    match next {
        Next::Told(_) => Turned::In(Duration::ZERO),
        Next::In(rest) => {
            Turned::In(Duration::from_nanos(u64::try_from(rest).unwrap_or(u64::MAX)))
        }
        Next::Nobody => Turned::Nobody,
        Next::Closed => Turned::Closed,
    }
}
