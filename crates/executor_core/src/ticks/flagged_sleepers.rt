//! The sleepers, with the room in which nobody sleeps.
ghost use Rattle.std.specs.Prelude.{◌≡◌, ◌≢◌, ◌+◌, ◌<◌, ◌≤◌, true, not, [], None, length, vec_len, OnOk, IsOk};
ghost use Rattle.executor_parts.specs.Sleepers.{last_waker, without_last};
ghost use Rattle.executor_model.specs.ActsOfSleepers.{given_back};
ghost use Rattle.executor_model.specs.World.{Awake, Asleep};
ghost use Rattle.executor_core.specs.FallingAsleep as falling;
ghost use Rattle.executor_core.specs.Ticks.{as_ticker, flagged, rooms_beside, IsSpare};

use crate::ticks::ticker::Ticker;
use executor_model::Sleeping;
use executor_parts::{Again, Room, Sleeper, Sleepers, Slept, Unreserved, WokenUp, exchange_flag};
use std::alloc::{AllocError, Global};
use std::marker::Model;
use std::mem;

/// The sleepers and the flag beside them, with the room in which nobody sleeps: as much as there is for more sleepers. Each
/// call but `reserve` is one section of whoever locks them, and takes no memory.
pub struct FlaggedSleepers {
    sleepers: Sleepers<Sleeping>,
    notified: bool,
    rooms: Vec<Room>,
    // Room that was made ahead, for the next tick or run.
    spare: Option<Room>,
}

/// How a tick or run fell asleep.
#[derive(Clone, Copy)]
pub enum FellAsleep {
    /// Anew, or it had been told meanwhile: it has to search once more.
    Searches,
    /// It slept there already, with this, which goes.
    Rests(Option<Sleeping>),
    /// There is no place for it.
    Nowhere,
}

impl Model for FlaggedSleepers {
    ghost use Rattle.std.specs.Prelude.{◌+◌, ◌≤◌, nat_lt, ◌&&◌, is_some, vec_len, vec_capacity};
    ghost use Rattle.executor_core.specs.Ticks.{Flagged, ahead, rooms_beside, IsSpare};

    ghost Value = { Flagged };

    ghost view = { λ s. record {
      sleepers = record s.sleepers { rooms = rooms_beside s.spare s.sleepers.rooms };
      notified = s.notified;
      has_room = is_some s.spare && nat_lt (vec_len s.rooms) (vec_capacity s.rooms);
    } };

    ghost invariant = { λ s. IsSpare s.spare s.sleepers
        × (s.sleepers.rooms ≤ vec_len s.rooms + s.sleepers.count + ahead s.spare) };
}

/// The room that was made ahead is given back.
fn give_spare_back(sleepers: &mut Sleepers<Sleeping>, spare: &mut Option<Room>)
    requires { IsSpare spare.old sleepers.old }
    ensures none { spare.new ≡ None }
    ensures room { sleepers.new ≡ record sleepers.old { rooms = rooms_beside spare.old sleepers.old.rooms } }
{
    match mem::replace(spare, None) {
        Some(room) => sleepers.give_back(room),
        None => {}
    }
}

/// Room is given back, where nobody sleeps in it.
fn give_back(sleepers: &mut Sleepers<Sleeping>, room: Room)
    ensures given { sleepers.new ≡ given_back sleepers.old }
    ensures count { sleepers.new.count ≡ sleepers.old.count }
    ensures some { sleepers.old.count < sleepers.old.rooms → sleepers.new.rooms + 1 ≡ sleepers.old.rooms }
    ensures none { sleepers.old.rooms ≤ sleepers.old.count → sleepers.new.rooms ≡ sleepers.old.rooms }
{
    sleepers.give_back(room);
}

/// Room that is at hand is given back, where there is some.
fn give_one_back(sleepers: &mut Sleepers<Sleeping>, rooms: &mut Vec<Room>)
    requires { sleepers.old.rooms ≤ vec_len rooms.old + sleepers.old.count }
    ensures given { sleepers.new ≡ given_back sleepers.old }
    ensures hand { sleepers.new.rooms ≤ vec_len rooms.new + sleepers.new.count }
{
    match rooms.pop() {
        Some(room) => give_back(sleepers, room),
        None => {}
    }
}

/// One that was awake falls asleep.
fn fall_asleep_anew(
    sleepers: &mut Sleepers<Sleeping>,
    rooms: &mut Vec<Room>,
    notified: &mut bool,
    sleeping: Sleeping,
) -> (Ticker, FellAsleep)
    requires { sleepers.old.rooms ≤ vec_len rooms.old + sleepers.old.count }
    ensures place { as_ticker result.0 ≡ (falling.fall_asleep Awake sleeping (flagged sleepers.old notified.old)).place }
    ensures fell_asleep { result.1 ≡ (falling.fall_asleep Awake sleeping (flagged sleepers.old notified.old)).fell_asleep }
    ensures sleepers { sleepers.new ≡ (falling.fall_asleep Awake sleeping (flagged sleepers.old notified.old)).flagged.sleepers }
    ensures flag { notified.new ≡ (falling.fall_asleep Awake sleeping (flagged sleepers.old notified.old)).flagged.notified }
    ensures hand { sleepers.new.rooms ≤ vec_len rooms.new + sleepers.new.count }
{
    let Some(room) = rooms.pop() else {
        return (Ticker::Awake, FellAsleep::Nowhere);
    };
    match sleepers.fall_asleep(room, sleeping) {
        Ok(
            Slept {
                sleeper,
                notified: flag,
            },
        ) => {
            *notified = flag;
            (Ticker::Asleep(sleeper), FellAsleep::Searches)
        }
        Err(Unreserved { room, waker: _ }) => {
            rooms.push_reserved(room);
            (Ticker::Awake, FellAsleep::Nowhere)
        }
    }
}

/// One that slept falls asleep again.
fn fall_asleep_again(
    sleepers: &mut Sleepers<Sleeping>,
    notified: &mut bool,
    sleeper: &Sleeper,
    sleeping: Sleeping,
) -> FellAsleep
    ensures fell_asleep { result
        ≡ (falling.fall_asleep (Asleep sleeper.now.number) sleeping (flagged sleepers.old notified.old)).fell_asleep }
    ensures sleepers { sleepers.new
        ≡ (falling.fall_asleep (Asleep sleeper.now.number) sleeping (flagged sleepers.old notified.old)).flagged.sleepers }
    ensures flag { notified.new
        ≡ (falling.fall_asleep (Asleep sleeper.now.number) sleeping (flagged sleepers.old notified.old)).flagged.notified }
    ensures count { sleepers.new.count ≡ sleepers.old.count }
    ensures rooms { sleepers.new.rooms ≡ sleepers.old.rooms }
{
    match sleepers.fall_asleep_again(sleeper, sleeping) {
        Again::Replaced(old) => FellAsleep::Rests(Some(old)),
        Again::Notified(flag) => {
            *notified = flag;
            FellAsleep::Searches
        }
        Again::Unknown(_) => FellAsleep::Nowhere,
    }
}

impl FlaggedSleepers {
    /// No sleepers and no room, which takes no memory.
    pub fn new(alloc: Global) -> FlaggedSleepers
        ensures sleepers { result.sleepers ≡ record { count = 0; rooms = 0; wakers = []; free = [] } }
        ensures flag { result.notified ≡ true }
    {
        FlaggedSleepers {
            sleepers: Sleepers::new(alloc),
            notified: true,
            rooms: Vec::new(alloc),
            spare: None,
        }
    }

    /// Makes room ahead for one more sleeper. Where there is some it succeeds. Either way all else stays as it was.
    pub fn reserve(&mut self) -> Result<(), AllocError>
        ensures same { self.new ≡ record self.old { has_room = self.new.has_room } }
        ensures room { OnOk result (self.new.has_room ≡ true) }
        ensures succeeds { self.old.has_room ≡ true → IsOk result }
    {
        self.rooms.reserve(1)?;
        if self.spare.is_some() {
            return Ok(());
        }
        let room = self.sleepers.make_room()?;
        match mem::replace(&mut self.spare, Some(room)) {
            None => Ok(()),
            Some(_room) => unreachable!(),
        }
    }

    /// Room for one more sleeper, which was made ahead.
    pub fn add_room(&mut self)
        requires { self.old.has_room ≡ true }
        ensures room { self.new.sleepers ≡ record self.old.sleepers { rooms = self.old.sleepers.rooms + 1 } }
        ensures flag { self.new.notified ≡ self.old.notified }
    {
        match mem::replace(&mut self.spare, None) {
            Some(room) => self.rooms.push_reserved(room),
            None => unreachable!(),
        }
    }

    /// The room for one sleeper is given back, where nobody sleeps in it.
    pub fn give_room_back(&mut self)
        ensures sleepers { self.new.sleepers ≡ given_back self.old.sleepers }
        ensures flag { self.new.notified ≡ self.old.notified }
    {
        give_spare_back(&mut self.sleepers, &mut self.spare);
        give_one_back(&mut self.sleepers, &mut self.rooms);
    }

    /// The flag is exchanged, which begins the telling of a sleeper. Answers whether that was won.
    pub fn exchange_flag(&mut self) -> bool
        ensures won { result ≡ not self.old.notified }
        ensures flag { self.new ≡ record self.old { notified = true } }
    {
        let (notified, won) = exchange_flag(self.notified);
        self.notified = notified;
        won
    }

    /// What was added last is handed out, where no sleeper is notified.
    pub fn hand_out(&mut self) -> Option<Sleeping>
        ensures told { length self.old.sleepers.wakers ≢ self.old.sleepers.count →
            (result ≡ None) × (self.new ≡ self.old) }
        ensures last { length self.old.sleepers.wakers ≡ self.old.sleepers.count →
            result ≡ last_waker self.old.sleepers.wakers }
        ensures left { length self.old.sleepers.wakers ≡ self.old.sleepers.count →
            self.new ≡ record self.old { sleepers = without_last self.old.sleepers } }
    {
        self.sleepers.hand_out()
    }

    /// One falls asleep with this, or falls asleep again.
    pub fn fall_asleep(&mut self, place: Ticker, sleeping: Sleeping) -> (Ticker, FellAsleep)
        ensures place { as_ticker result.0 ≡ (falling.fall_asleep (as_ticker place) sleeping self.old).place }
        ensures fell_asleep { result.1 ≡ (falling.fall_asleep (as_ticker place) sleeping self.old).fell_asleep }
        ensures sleepers { self.new.sleepers ≡ (falling.fall_asleep (as_ticker place) sleeping self.old).flagged.sleepers }
        ensures flag { self.new.notified ≡ (falling.fall_asleep (as_ticker place) sleeping self.old).flagged.notified }
    {
        give_spare_back(&mut self.sleepers, &mut self.spare);
        match place {
            Ticker::Awake => fall_asleep_anew(
                &mut self.sleepers,
                &mut self.rooms,
                &mut self.notified,
                sleeping,
            ),
            Ticker::Asleep(sleeper) => {
                let fell_asleep = fall_asleep_again(
                    &mut self.sleepers,
                    &mut self.notified,
                    &sleeper,
                    sleeping,
                );
                (Ticker::Asleep(sleeper), fell_asleep)
            }
            Ticker::Left => (Ticker::Left, FellAsleep::Nowhere),
        }
    }

    /// One wakes up, where it sleeps. Answers what it slept with, which goes.
    #[tactic(auto, using(crate::proofs::Rooms::woken_up_count, crate::proofs::Rooms::woken_up_rooms))]
    pub fn wake_up(&mut self, place: Ticker) -> (Ticker, Option<Sleeping>)
        requires { self.old.has_room ≡ true }
        ensures place { as_ticker result.0 ≡ falling.awake_now (as_ticker place) }
        ensures old { result.1 ≡ falling.sleeps_with (as_ticker place) self.old.sleepers }
        ensures sleepers { self.new.sleepers ≡ (falling.woke_up (as_ticker place) self.old).sleepers }
        ensures flag { self.new.notified ≡ (falling.woke_up (as_ticker place) self.old).notified }
    {
        give_spare_back(&mut self.sleepers, &mut self.spare);
        match place {
            Ticker::Awake => (Ticker::Awake, None),
            Ticker::Asleep(sleeper) => {
                let WokenUp {
                    room,
                    waker,
                    notified,
                } = self.sleepers.wake_up(sleeper);
                self.rooms.push_reserved(room);
                self.notified = notified;
                (Ticker::Awake, waker)
            }
            Ticker::Left => (Ticker::Left, None),
        }
    }

    /// One leaves. Where it was awake, its room is given back; where it slept, `give_room_back` is still to come. Answers what it slept
    /// with, which goes, and whether it had been told, so that another is to be told in its place.
    #[tactic(auto, using(crate::proofs::Rooms::woken_up_count, crate::proofs::Rooms::woken_up_rooms))]
    pub fn leave(&mut self, place: Ticker) -> (Option<Sleeping>, bool)
        requires { self.old.has_room ≡ true }
        ensures old { result.0 ≡ falling.sleeps_with (as_ticker place) self.old.sleepers }
        ensures told { result.1 ≡ falling.was_told (as_ticker place) self.old.sleepers }
        ensures sleepers { self.new.sleepers ≡ (falling.left (as_ticker place) self.old).sleepers }
        ensures flag { self.new.notified ≡ (falling.left (as_ticker place) self.old).notified }
    {
        give_spare_back(&mut self.sleepers, &mut self.spare);
        match place {
            Ticker::Awake => {
                give_one_back(&mut self.sleepers, &mut self.rooms);
                (None, false)
            }
            Ticker::Asleep(sleeper) => {
                let (woken_up, told) = self.sleepers.leave(sleeper);
                let WokenUp {
                    room,
                    waker,
                    notified,
                } = woken_up;
                self.rooms.push_reserved(room);
                self.notified = notified;
                (waker, told)
            }
            Ticker::Left => (None, false),
        }
    }

    /// One goes for good: it leaves, and its room is given back.
    #[tactic(auto, using(crate::proofs::Rooms::woken_up_count, crate::proofs::Rooms::woken_up_rooms))]
    pub fn let_go(&mut self, place: Ticker)
        ensures sleepers { self.new.sleepers ≡ (falling.gone (as_ticker place) self.old).sleepers }
        ensures flag { self.new.notified ≡ (falling.gone (as_ticker place) self.old).notified }
    {
        give_spare_back(&mut self.sleepers, &mut self.spare);
        match place {
            Ticker::Awake => give_one_back(&mut self.sleepers, &mut self.rooms),
            Ticker::Asleep(sleeper) => {
                let WokenUp {
                    room,
                    waker: _,
                    notified,
                } = self.sleepers.wake_up(sleeper);
                give_back(&mut self.sleepers, room);
                self.notified = notified;
            }
            Ticker::Left => {}
        }
    }
}

impl Drop for FlaggedSleepers {
    /// All room is given back.
    fn drop(self) {
        let FlaggedSleepers {
            mut sleepers,
            notified: _,
            mut rooms,
            spare,
        } = self;
        while let Some(room) = rooms.pop() {
            sleepers.give_back(room);
        }
        rooms.destroy_empty();
        match spare {
            Some(room) => sleepers.give_back(room),
            None => {}
        }
    }
}
