//! The list of the runs' own queues.
ghost use Rattle.std.specs.Prelude.{◌≡◌, ◌+◌, ◌-◌, ◌==◌, [], ◌∷◌, ◌++◌, IfOk, IfErr, OnOk};
ghost use Rattle.async_executor.specs.OwnQueues.{listed, without, queue_of, place_in};

use std::alloc::{AllocError, Global};

/// The runs' own queues, in the order in which the runs were first polled. Each has the number of its run.
#[derive(Drop)]
pub struct OwnQueues<Q> {
    queues: Vec<Numbered<Q>>,
    // How many runs there are, including those that were never polled.
    rooms: usize,
    // How many runs there were so far.
    made: u64,
}

/// A queue with the number of its run.
#[derive(Drop)]
pub struct Numbered<Q> {
    pub number: u64,
    pub queue: Q,
}

/// A run's room in the list, with the number that no other run has. It has no drop: leaving the list gives it back, so that no
/// queue stays there without a run.
#[must_use]
pub struct RunRoom {
    number: u64,
}

impl RunRoom {
    /// The number of its run.
    pub fn number(&self) -> u64
        ensures { result ≡ self.now.number }
    {
        self.number
    }
}

impl<Q> OwnQueues<Q> {
    /// Makes an empty list, which takes no memory.
    pub fn new(alloc: Global) -> Self
        ensures queues { result.queues.items ≡ [] }
        ensures rooms { result.rooms ≡ 0 }
        ensures made { result.made ≡ 0 }
    {
        OwnQueues {
            queues: Vec::new(alloc),
            rooms: 0,
            made: 0,
        }
    }

    /// Takes the room for one more run's queue, under the number after that of the run before. A refusal changes nothing that a
    /// walk sees.
    pub fn take_room(&mut self) -> Result<RunRoom, AllocError>
        ensures queues { self.new.queues.items ≡ self.old.queues.items }
        ensures number { IfOk result (λ room. room.number ≡ self.old.made + 1) }
        ensures taken { OnOk result ((self.new.rooms ≡ self.old.rooms + 1) × (self.new.made ≡ self.old.made + 1)) }
        ensures refused { IfErr result (λ _. (self.new.rooms ≡ self.old.rooms) × (self.new.made ≡ self.old.made)) }
    {
        let (Some(rooms), Some(number)) = (self.rooms.checked_add(1), self.made.checked_add(1))
        else {
            return Err(AllocError);
        };
        self.queues
            .reserve(rooms.saturating_sub(self.queues.len()))?;
        self.rooms = rooms;
        self.made = number;
        Ok(RunRoom { number })
    }

    /// Appends a run's queue. It needs no memory, as its room was taken before.
    pub fn insert(&mut self, room: &RunRoom, queue: Q) -> Result<(), AllocError>
    where
        Q: Drop,
        ensures last { OnOk result (self.new.queues.items ≡ listed room.now.number queue self.old.queues.items) }
        ensures refused { IfErr result (λ _. self.new.queues.items ≡ self.old.queues.items) }
        ensures rooms { self.new.rooms ≡ self.old.rooms }
        ensures made { self.new.made ≡ self.old.made }
    {
        self.queues.push(Numbered {
            number: room.number,
            queue,
        })?;
        Ok(())
    }

    /// Removes a run: its room is given back, and its queue is removed, where it stands there. The others keep their order.
    pub fn leave(&mut self, room: RunRoom) -> Option<Q>
        ensures queue { result ≡ queue_of room.number self.old.queues.items }
        ensures rest { self.new.queues.items ≡ without room.number self.old.queues.items }
        ensures rooms { self.new.rooms ≡ self.old.rooms - 1 }
        ensures made { self.new.made ≡ self.old.made }
    {
        let RunRoom { number } = room;
        self.rooms = self.rooms.saturating_sub(1);
        match place_of(self.queues.as_slice(), number) {
            Some(at) => {
                let Numbered { number: _, queue } = self.queues.remove(at);
                Some(queue)
            }
            None => None,
        }
    }

    /// The queues, in order.
    pub fn all(&self) -> &[Numbered<Q>]
        ensures { result.now ≡ self.now.queues.items }
    {
        self.queues.as_slice()
    }
}

/// Where the first queue with this number stands.
fn place_of<Q>(queues: &[Numbered<Q>], number: u64) -> Option<usize>
    ensures { result ≡ place_in number queues.now }
{
    queues.iter().position(|listed| listed.number == number)
}
