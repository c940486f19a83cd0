ghost use Rattle.std.specs.Arc.{arc_value};
ghost use Rattle.std.specs.Prelude.{◌≡◌, IfOk, None, Some};
ghost use Rattle.async_task.specs.declared.poll.Poll.TheVariants as poll;
ghost use Rattle.waiting.specs.Sending.{IsSentOrBack, MayTrySend};

use async_task::{NoMemory, Poll, Wake};
use std::sync::Wait;
use waiting::channel::{Send, SendError, Sender, TrySendError};

/// Asks for futures by descriptors `D`. A future of the pool that spawns them may hold it, since it doesn't name that future's type.
/// Whoever has to wait leaves a waker of the type `A`. The drop of the last one closes the intake: what was asked for is still
/// spawned.
///
/// A future keeps its permit while it waits to ask. If all that run wait so, none ends and nothing is taken: let fewer ask than may
/// run, as one `Acceptor`, or let them `try_spawn`.
pub struct Spawner<D: Drop, A: Wake + Drop, K: Wake + Drop, R: Wait + Copy + Drop> {
    sender: Sender<D, A, K, R>,
}

impl<D: Drop, A: Wake + Drop, K: Wake + Drop, R: Wait + Copy + Drop> Drop for Spawner<D, A, K, R> {
    fn drop(self) {
        let Spawner { sender: _sender } = self;
    }
}

impl<D: Drop, A: Wake + Drop, K: Wake + Drop, R: Wait + Copy + Drop> Spawner<D, A, K, R> {
    pub(crate) fn new(sender: Sender<D, A, K, R>) -> Self
        ensures { result.sender ≡ sender }
    {
        Spawner { sender }
    }

    /// One more, for another task; refused where there are too many. It takes no memory.
    pub fn clone(&self) -> Result<Self, NoMemory>
        ensures same { IfOk result (λ spawner. arc_value spawner.sender.shared ≡ arc_value self.now.sender.shared) }
    {
        match self.sender.clone() {
            Ok(sender) => Ok(Spawner { sender }),
            Err(error) => Err(error),
        }
    }

    /// Asks for a future at once. `Full` where `Room::asked` descriptors aren't taken yet, `Closed` where the intake is closed: the
    /// descriptor comes back. It takes no memory.
    pub fn try_spawn(&self, asked: D) -> Result<(), TrySendError<D>>
        ensures { MayTrySend (arc_value self.now.sender.shared).line.queue.capacity asked result }
    {
        self.sender.try_send(asked)
    }

    /// Asks for a future, and waits while the intake is full: a future that is ready once the descriptor was sent. Where the intake is
    /// `Closed`, or `NoMemory` is left to wait, the descriptor comes back. Dropped before that, it drops the descriptor and waits no more:
    /// a wake that came for it goes on to the next who waits.
    pub fn spawn(&self, asked: D) -> Send<'_, D, A, K, R>
        ensures asked { result.message ≡ Some asked }
        ensures here { result.sender.now ≡ self.now.sender }
    {
        self.sender.send(asked)
    }

    /// As the poll of `spawn`, for a future that has the spawner in a field: takes the descriptor out once it was sent, and is ready at
    /// once where there is none. Who got `Pending` and won't poll again calls `give_up`, or drops the spawner.
    pub fn poll_spawn(
        &mut self,
        waker: &A,
        asked: &mut Option<D>,
    ) -> Poll<Result<(), SendError<()>>>
        ensures asked { IsSentOrBack asked.old asked.new result }
        ensures nothing { asked.old ≡ None → result ≡ poll.Ready (Ok tt) }
    {
        self.sender.poll_send(waker, asked)
    }

    /// Waits no more, after a `poll_spawn` that was pending: a wake that came for it goes on to the next who waits. It takes no memory.
    pub fn give_up(&mut self)
        ensures waits_not { self.new.sender.waiting ≡ None }
        ensures same { self.new.sender.shared ≡ self.old.sender.shared }
    {
        self.sender.give_up();
    }

    /// Closes the intake: nothing more can be asked for, what was asked for is still spawned, and all who wait are woken. Answers whether
    /// it was open. It takes no memory.
    pub fn close(&self) -> bool {
        self.sender.close()
    }

    /// Whether it is closed: so it stays.
    pub fn is_closed(&self) -> bool {
        self.sender.is_closed()
    }
}
