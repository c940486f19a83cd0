//! The list of sleepers: the ticks and runs that fall asleep where they find nothing to do.
ghost use Rattle.std.specs.Prelude.{◌≡◌, ◌≢◌, ◌+◌, ◌<◌, ◌≤◌, [], true, not, None, OnOk, IfOk, IfErr, IfSome, is_none, length, vec_capacity};
ghost use Rattle.executor_parts.specs.Sleepers.{flag_of, last_waker, without_last, put_to_sleep, next_number, IsAgain, woken_up, waker_of};
ghost use Rattle.executor_parts.specs.Sleepers.{position_of};

use std::alloc::{AllocError, Global};
use std::marker::Model;
use std::mem;

/// Those who sleep, each under a number, with the wakers of those that are not notified: a sleeper is notified when its
/// waker is missing from the list. After `Sleepers` of `async-executor`. Each call is one section of whoever locks the
/// list; `make_room` alone takes memory. Beside it stands the flag `notified`, an atomic of the executor: what a section
/// says of it is to be stored before the unlock.
#[derive(Drop)]
pub struct Sleepers<W> {
    // How many sleep, notified ones too.
    count: usize,
    // How many may sleep: for so many there is room.
    rooms: usize,
    // The numbers of those that are not notified, each with its waker, in the order in which these came.
    wakers: Vec<(usize, W)>,
    // Numbers that were given back.
    free: Vec<usize>,
}

/// Room for one sleeper. It has no drop: it is fallen asleep in, or given back.
#[must_use]
pub struct Room {
    seal: (),
}

/// The number of one who sleeps. It has no drop: who has it wakes up or leaves.
#[must_use]
pub struct Sleeper {
    number: usize,
}

/// One fell asleep.
#[must_use]
pub struct Slept {
    /// Its number.
    pub sleeper: Sleeper,
    /// What the flag becomes.
    pub notified: bool,
}

/// There was no room to sleep in: the room is of another list. Both come back.
#[must_use]
pub struct Unreserved<W> {
    pub room: Room,
    pub waker: W,
}

/// How one fell asleep again.
#[must_use]
#[derive(Clone, Copy, Debug, PartialEq, Eq, Drop)]
pub enum Again<W> {
    /// It was not notified: its waker was replaced, and the old one is to be dropped once the lock is given back. The
    /// flag stays.
    Replaced(W),
    /// It was notified, and the flag becomes this.
    Notified(bool),
    /// No such number sleeps here: the waker comes back.
    Unknown(W),
}

/// One woke up, or left.
#[must_use]
pub struct WokenUp<W> {
    /// Its room.
    pub room: Room,
    /// Its waker, to be dropped once the lock is given back; none where it was notified.
    pub waker: Option<W>,
    /// What the flag becomes.
    pub notified: bool,
}

impl<W> Model for Sleepers<W> {
    ghost use Rattle.executor_parts.specs.Sleepers.{Sleepers as List, sleepers_code};

    ghost Value = { List W };

    ghost coded = { sleepers_code W.code };

    ghost use Rattle.executor_parts.specs.Sleepers.{IsRoomy};

    ghost view = { λ s. record { count = s.count; rooms = s.rooms; wakers = s.wakers.items; free = s.free.items } };

    ghost invariant = { λ s. IsRoomy s.count s.rooms s.wakers s.free };
}

/// The flag's exchange, which begins a `notify`: what the flag becomes, and whether it was won, so that the winner hands
/// out.
pub fn exchange_flag(notified: bool) -> (bool, bool)
    ensures flag { result.0 ≡ true }
    ensures won { result.1 ≡ not notified }
{
    (true, !notified)
}

/// Where the last entry of this number is.
fn find<W>(wakers: &[(usize, W)], number: usize) -> Option<usize>
    ensures place { result ≡ position_of number wakers.now }
    ensures within { IfSome result (λ at. at < length wakers.now) }
{
    let mut at = wakers.len();
    while at > 0 {
        at -= 1;
        if wakers[at].0 == number {
            return Some(at);
        }
    }
    None
}

/// The vector has room for this many.
fn reserve_to<T>(items: &mut Vec<T>, len: usize) -> Result<(), AllocError>
    ensures items { items.new.items ≡ items.old.items }
    ensures room { OnOk result (len ≤ vec_capacity items.new) }
    ensures grows { vec_capacity items.old ≤ vec_capacity items.new }
{
    if items.capacity() < len {
        items.reserve(len - items.len())?;
    }
    Ok(())
}

impl<W> Sleepers<W> {
    /// Nobody sleeps. Takes no memory.
    pub fn new(alloc: Global) -> Self
        ensures { result ≡ record { count = 0; rooms = 0; wakers = []; free = [] } }
    {
        Sleepers {
            count: 0,
            rooms: 0,
            wakers: Vec::new(alloc),
            free: Vec::new(alloc),
        }
    }

    /// How many sleep, those that are notified too.
    pub fn count(&self) -> usize
        ensures { result ≡ self.now.count }
    {
        self.count
    }

    /// Makes room for one more sleeper, in each list. Refused, nothing changes.
    pub fn make_room(&mut self) -> Result<Room, AllocError>
        ensures within { self.old.count ≤ self.old.rooms }
        ensures ok { OnOk result (self.new ≡ record self.old { rooms = self.old.rooms + 1 }) }
        ensures err { IfErr result (λ _. self.new ≡ self.old) }
    {
        let rooms = self.rooms + 1;
        reserve_to(&mut self.wakers, rooms)?;
        reserve_to(&mut self.free, rooms)?;
        self.rooms = rooms;
        Ok(Room { seal: () })
    }

    /// Gives room back, where nobody sleeps in it.
    pub fn give_back(&mut self, room: Room)
        ensures some { self.old.count < self.old.rooms → self.new.rooms + 1 ≡ self.old.rooms }
        ensures none { self.old.rooms ≤ self.old.count → self.new.rooms ≡ self.old.rooms }
        ensures rest { self.new ≡ record self.old { rooms = self.new.rooms } }
    {
        let Room { seal: () } = room;
        if self.count < self.rooms {
            self.rooms -= 1;
        }
    }

    /// Whether nobody sleeps, or a sleeper is notified: what the flag becomes where it is stored.
    pub fn is_notified(&self) -> bool
        ensures { result ≡ flag_of self.now }
    {
        self.count == 0 || self.count > self.wakers.len()
    }

    /// Hands out the waker that was added last, where no sleeper is notified. The winner of the flag's exchange calls it
    /// once the lock is given back. In `async-executor` it is `notify`.
    pub fn hand_out(&mut self) -> Option<W>
        ensures told { length self.old.wakers ≢ self.old.count → (result ≡ None) × (self.new ≡ self.old) }
        ensures last { length self.old.wakers ≡ self.old.count → result ≡ last_waker self.old.wakers }
        ensures left { length self.old.wakers ≡ self.old.count → self.new ≡ without_last self.old }
    {
        if self.wakers.len() != self.count {
            return None;
        }
        match self.wakers.pop() {
            Some((_, waker)) => Some(waker),
            None => None,
        }
    }

    /// Falls asleep under a new number: one that was given back last, or the next. In `async-executor` it is `insert`.
    pub fn fall_asleep(&mut self, room: Room, waker: W) -> Result<Slept, Unreserved<W>>
        ensures room { IfOk result (λ _. self.old.count < self.old.rooms) }
        ensures number { IfOk result (λ s. s.sleeper.number ≡ next_number self.old) }
        ensures sleeps { OnOk result (self.new ≡ put_to_sleep waker self.old) }
        ensures flag { IfOk result (λ s. s.notified ≡ flag_of self.new) }
        ensures refused { IfErr result (λ u. (u.waker ≡ waker) × (self.new ≡ self.old) × (self.old.rooms ≤ self.old.count)) }
    {
        if self.count >= self.rooms {
            return Err(Unreserved { room, waker });
        }
        let Room { seal: () } = room;
        let freed = self.free.pop();
        let number = freed.unwrap_or(self.count + 1);
        self.count += 1;
        self.wakers.push_reserved((number, waker));
        Ok(Slept {
            sleeper: Sleeper { number },
            notified: self.is_notified(),
        })
    }

    /// Falls asleep again: where its entry is there, that gets the new waker, and else it gets an entry again. In
    /// `async-executor` it is `update`.
    pub fn fall_asleep_again(&mut self, sleeper: &Sleeper, waker: W) -> Again<W>
        ensures { IsAgain sleeper.now.number waker self.old self.new result }
    {
        match find(self.wakers.as_slice(), sleeper.number) {
            Some(at) => {
                let (_, old) = mem::replace(&mut self.wakers[at], (sleeper.number, waker));
                Again::Replaced(old)
            }
            None => {
                if self.wakers.len() >= self.count {
                    return Again::Unknown(waker);
                }
                self.wakers.push_reserved((sleeper.number, waker));
                Again::Notified(self.is_notified())
            }
        }
    }

    /// Wakes up: its number is free again, and its entry goes. In `async-executor` it is `remove`.
    pub fn wake_up(&mut self, sleeper: Sleeper) -> WokenUp<W>
        ensures waker { result.waker ≡ waker_of sleeper.number self.old.wakers }
        ensures woken_up { self.new ≡ woken_up sleeper.number self.old }
        ensures flag { result.notified ≡ flag_of self.new }
    {
        let Sleeper { number } = sleeper;
        let waker = match find(self.wakers.as_slice(), number) {
            Some(at) => Some(self.wakers.remove(at).1),
            None => None,
        };
        if self.wakers.len() < self.count {
            self.count -= 1;
            self.free.push_reserved(number);
        }
        WokenUp {
            room: Room { seal: () },
            waker,
            notified: self.is_notified(),
        }
    }

    /// Leaves, as the drop of a tick or run does: it wakes up, and answers whether it was notified, so that the call is
    /// to be passed on.
    pub fn leave(&mut self, sleeper: Sleeper) -> (WokenUp<W>, bool)
        ensures waker { result.0.waker ≡ waker_of sleeper.number self.old.wakers }
        ensures woken_up { self.new ≡ woken_up sleeper.number self.old }
        ensures flag { result.0.notified ≡ flag_of self.new }
        ensures was { result.1 ≡ is_none (waker_of sleeper.number self.old.wakers) }
    {
        let woken_up = self.wake_up(sleeper);
        let notified = woken_up.waker.is_none();
        (woken_up, notified)
    }
}
