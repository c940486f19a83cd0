ghost use Rattle.std.specs.Prelude.{◌≡◌, ◌<◌, IfOk, Some};

use crate::rooms::{NoRoom, Room, Rooms};
use async_task::{NoMemory, Returning, StoredRunnable};
use concurrent_queue::ConcurrentQueue;
use std::alloc::Global;
use std::boxed::Box;
use std::sync::{Mutex, Wait};

/// Places for tasks that are to be run, of one queue, for as long as the program runs. There is one for each future that the
/// queue accepts, until that is dropped.
#[derive(Drop)]
pub struct Places {
    pub(crate) queue: ConcurrentQueue<Returning<StoredRunnable>>,
    rooms: Mutex<Rooms>,
}

impl Places {
    /// So many places.
    pub fn leak(alloc: Global, number: usize) -> Result<&'static Places, NoMemory>
        requires { 0 < number }
        ensures { IfOk result (λ places. places.now.queue.capacity ≡ Some number) }
    {
        let Ok(queue) = ConcurrentQueue::bounded(alloc, number) else {
            return Err(NoMemory);
        };
        let rooms = Mutex::new(Rooms::new(number));
        match Box::new(alloc, Places { queue, rooms }) {
            Ok(places) => Ok(Box::leak(places)),
            Err(_) => Err(NoMemory),
        }
    }

    /// Takes room for a future, where there is some and the queue isn't closed.
    pub(crate) fn take_room<R: Wait>(&self, rt: &R) -> Result<Room, NoRoom> {
        self.rooms.lock(rt).take()
    }

    /// Gives the room of a future back.
    pub(crate) fn give_back<R: Wait>(&self, rt: &R, room: Room) {
        self.rooms.lock(rt).give_back(room);
    }

    /// Closes the queue: first it accepts no more, so that what it has accepted is closed by whoever closes it.
    pub(crate) fn close<R: Wait>(&self, rt: &R) {
        self.rooms.lock(rt).close();
        self.queue.close(rt);
    }
}
