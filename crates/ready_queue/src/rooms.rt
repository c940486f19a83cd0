//! How many futures a queue has accepted, and how many it may.
ghost use Rattle.std.specs.Prelude.{◌≡◌, ◌<◌, ◌+◌, ◌-◌, true, false, OnOk, IfErr};
ghost use Rattle.ready_queue.specs.Rooms.{IsRefusedAt};

/// The rooms of a queue, one for each future that it has accepted and that isn't dropped yet. They stand under a lock.
#[derive(Drop)]
pub struct Rooms {
    limit: usize,
    taken: usize,
    is_closed: bool,
}

/// A room that was taken. It has no drop: it is given back.
#[must_use]
pub struct Room {
    // No room is made elsewhere.
    own: (),
}

/// Why there is no room.
#[derive(Drop)]
pub enum NoRoom {
    /// All rooms are taken.
    Full,
    /// The queue is closed.
    Closed,
}

impl Rooms {
    /// So many rooms, of which none is taken.
    pub fn new(limit: usize) -> Rooms
        ensures limit { result.limit ≡ limit }
        ensures free { result.taken ≡ 0 }
        ensures open { result.is_closed ≡ false }
    {
        Rooms {
            limit,
            taken: 0,
            is_closed: false,
        }
    }

    /// Takes a room, where one is left and the queue isn't closed. Refused, nothing changes.
    pub fn take(&mut self) -> Result<Room, NoRoom>
        ensures open { OnOk result (self.old.is_closed ≡ false) }
        ensures left { OnOk result (self.old.taken < self.old.limit) }
        ensures taken { OnOk result (self.new ≡ record self.old { taken = self.old.taken + 1 }) }
        ensures cause { IfErr result (IsRefusedAt self.old) }
        ensures same { IfErr result (λ _. self.new ≡ self.old) }
    {
        if self.is_closed {
            return Err(NoRoom::Closed);
        }
        if self.taken >= self.limit {
            return Err(NoRoom::Full);
        }
        self.taken += 1;
        Ok(Room { own: () })
    }

    /// Gives a room back.
    pub fn give_back(&mut self, room: Room)
        ensures { self.new ≡ record self.old { taken = self.old.taken - 1 } }
    {
        let Room { own: () } = room;
        self.taken = self.taken.saturating_sub(1);
    }

    /// From now on no room is to be had.
    pub fn close(&mut self)
        ensures { self.new ≡ record self.old { is_closed = true } }
    {
        self.is_closed = true;
    }
}
