ghost use Rattle.std.specs.Arc.{arc_value};
ghost use Rattle.std.specs.Prelude.{◌≡◌, ◌<◌, IfOk, Some};

use crate::intake::Intake;
use crate::spawner::Spawner;
use async_task::{NoMemory, Wake};
use std::alloc::Global;
use std::sync::Wait;
use waiting::channel;
use waiting::semaphore::Semaphore;

/// What an intake has room for.
#[derive(Clone, Copy, Debug, PartialEq, Eq, Drop)]
pub struct Room {
    /// How many descriptors may wait to be taken.
    pub asked: usize,
    /// How many futures there may be at once: the permits.
    pub running: usize,
}

impl Room {
    /// For so many running futures, and as many descriptors.
    pub fn for_running(running: usize) -> Room
        ensures { (result.asked ≡ running) × (result.running ≡ running) }
    {
        Room {
            asked: running,
            running,
        }
    }
}

/// A spawner, and the intake that spawns on this pool what it asks for. `NoMemory` is the one error.
///
/// The pool needs a place for each permit, and one more for each thread that runs it or drops handles: who ends a future drops it, and
/// its permit, before the place is free. With fewer places a worker calls its own waker until its future finds one.
///
/// Here a `Numbered` is an `Admitted` of a `Ready<()>`, and `Numbers` makes one of a number:
///
/// ```text
/// let room = Room::for_running(1);
/// let pool = Pool::<Numbered, _>::new(rt, alloc, realm, 2)?;
/// let (spawner, intake) = spawning::<u64, ThreadWaker, _, _, _>(rt, alloc, pool, room)?;
/// assert!(rt; spawner.try_spawn(1).is_ok());
/// assert!(rt; matches!(spawner.try_spawn(2), Err(TrySendError::Full(2))));
/// intake.run_taking::<Numbered, _, _, _>(0, Numbers, yield_now())?;
/// assert!(rt; intake.available_permits() == 1);
/// assert!(rt; spawner.try_spawn(2).is_ok());
/// assert!(rt; matches!(intake.try_take(), Ok(2)));
/// ```
pub fn spawning<D: Drop, A: Wake + Drop, K: Wake + Drop, S: Drop, R: Wait + Copy + Drop>(
    rt: R,
    alloc: Global,
    pool: S,
    room: Room,
) -> Result<(Spawner<D, A, K, R>, Intake<D, A, K, S, R>), NoMemory>
    requires { (0 < room.asked) × (0 < room.running) }
    ensures same { IfOk result (λ made. arc_value made.0.sender.shared ≡ arc_value made.1.asked.shared) }
    ensures asked { IfOk result (λ made. (arc_value made.0.sender.shared).line.queue.capacity ≡ Some room.asked) }
{
    let (sender, asked) = match channel::bounded(rt, alloc, room.asked) {
        Ok(ends) => ends,
        Err(error) => return Err(error),
    };
    match Semaphore::new(rt, alloc, room.running as u64) {
        Ok(permits) => Ok((Spawner::new(sender), Intake::new(pool, asked, permits))),
        Err(error) => Err(error),
    }
}
