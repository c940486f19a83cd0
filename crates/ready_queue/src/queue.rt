ghost use Rattle.std.specs.Prelude.{◌≡◌, IfOk, IfErr, IfSome};
ghost use Rattle.ready_queue.specs.Errors.{refused};

use crate::accepted::Accepted;
use crate::errors::SpawnError;
use crate::names::{QueueRealm, QueueRunnable, QueueTask, QueueWaker};
use crate::places::Places;
use crate::ready::Ready;
use crate::rooms::NoRoom;
use async_task::{Future, Output, OutsideWaker, Parts, Runtime, close_returned, spawn};

/// A queue of tasks that are to be run, and the realm where they lie. Threads that spawn or run share it by reference.
#[derive(Drop)]
pub struct ReadyQueue<F: Drop + 'static, T: 'static, W: 'static, R: Runtime> {
    realm: &'static QueueRealm<F, T, W, R>,
    ready: Ready<R>,
}

impl<F: Drop + 'static, T: Output, W: OutsideWaker, R: Runtime> ReadyQueue<F, T, W, R> {
    /// A queue with these places. Realm and places are its own: its tasks lie there, and no others.
    pub fn new(rt: R, realm: &'static QueueRealm<F, T, W, R>, places: &'static Places) -> Self
        ensures realm { result.realm.now.number ≡ realm.now.number }
        ensures places { result.ready.places.now ≡ places.now }
        ensures rt { result.ready.rt ≡ rt }
    {
        ReadyQueue {
            realm,
            ready: Ready { places, rt },
        }
    }

    /// Where the tasks lie.
    pub fn realm(&self) -> &'static QueueRealm<F, T, W, R>
        ensures { result.now.number ≡ self.now.realm.now.number }
    {
        self.realm
    }

    /// A new task, which is queued to be run. What was let go of the queue's tasks is closed first. The future is accepted
    /// where it has room until it is dropped; a refused one comes back, and no task was made of it.
    pub fn spawn(&self, future: F) -> Result<QueueTask<F, T, W, R>, SpawnError<F>>
        ensures here { IfOk result (λ task. task.identity.realm ≡ self.now.realm.now.number) }
        ensures future { IfErr result (λ error. refused error ≡ future) }
    {
        let (places, rt) = (self.ready.places, self.ready.rt);
        close_returned(rt, self.realm);
        let room = match places.take_room(&rt) {
            Ok(room) => room,
            Err(NoRoom::Closed) => return Err(SpawnError::Closed(future)),
            Err(NoRoom::Full) => return Err(SpawnError::Full(future)),
        };
        self.make(Accepted::new(rt, places, room, future))
    }

    /// A new task of a future that has room, which is queued. Without memory for it the future comes back.
    fn make(&self, future: Accepted<F, R>) -> Result<QueueTask<F, T, W, R>, SpawnError<F>>
        ensures here { IfOk result (λ task. task.identity.realm ≡ self.now.realm.now.number) }
        ensures future { IfErr result (λ error. refused error ≡ future.future) }
    {
        let (places, rt) = (self.ready.places, self.ready.rt);
        match spawn(rt, self.realm, future, Ready { places, rt }) {
            Ok((runnable, task)) => {
                runnable.schedule();
                Ok(task)
            }
            Err(
                Parts {
                    future,
                    schedule: _,
                    metadata: _,
                },
            ) => Err(SpawnError::NoMemory(future.refuse())),
        }
    }

    /// The next task that is to be run, where one is queued.
    pub fn next(&self) -> Option<QueueRunnable<F, T, W, R>>
        ensures { IfSome result (λ runnable. runnable.identity.realm ≡ self.now.realm.now.number) }
    {
        match self.ready.places.queue.pop(&self.ready.rt) {
            Ok(stored) => match stored.redeem(self.ready.rt, self.realm) {
                Some(runnable) => Some(runnable.into_runnable()),
                None => None,
            },
            Err(_) => None,
        }
    }

    /// Closes the queue and each task that it has. From now on it accepts no future, and a task that is woken is closed in
    /// its place.
    pub fn close(&self) {
        self.ready.places.close(&self.ready.rt);
        for _ in self.ready.rt.forever() {
            match self.next() {
                Some(runnable) => drop(runnable),
                None => return,
            }
        }
        unreachable!()
    }
}

impl<F, T: Output, W: OutsideWaker, R: Runtime> ReadyQueue<F, T, W, R>
where
    F: Future<QueueWaker<F, T, W, R>, Output = T> + Drop + 'static,
{
    /// Polls the futures of the tasks that are queued, one after the other, until none is.
    pub fn run(&self) {
        for _ in self.ready.rt.forever() {
            match self.next() {
                Some(runnable) => {
                    runnable.run();
                }
                None => return,
            }
        }
        unreachable!()
    }
}
