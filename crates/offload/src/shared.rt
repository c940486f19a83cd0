//! What the threads that serve and the callers that hand work in share.
ghost use Rattle.offload.specs.Putting.{HasPut, MayPut};
ghost use Rattle.std.specs.Arc.{arc_value};
ghost use Rattle.std.specs.Prelude.{◌≡◌, ◌<◌, IfOk, Some};

use crate::piece::{Piece, Taken};
use crate::work::Work;
use async_task::{NoMemory, Nobody, Poll, Wake};
use std::alloc::Global;
use std::sync::{Condvar, Wait};
use std::time::Duration;
use waiting::channel::{self, Receiver, SendError, Sender, TryRecvError, TrySendError};

/// The entrance through which work is accepted.
pub type Entrance<J, K, R> = Sender<Piece<J, K, R>, K, Nobody, R>;

/// The work that was accepted and not taken yet, and the threads that wait for some. What a call answers has no drop: its owner
/// notifies the threads with it.
#[derive(Drop)]
pub struct Shared<J: Work + Drop, K: Wake + Drop, R: Wait + Copy + Drop> {
    entrance: Entrance<J, K, R>,
    exit: Receiver<Piece<J, K, R>, K, Nobody, R>,
    /// Notified of each piece that comes, and of the end.
    changed: Condvar,
}

/// Proof that a piece came. It has no drop: a thread that waits has to be notified.
#[must_use]
pub struct Came {
    // Only this module makes one.
    own: (),
}

/// Proof that work was accepted, and a thread that waits was notified.
#[derive(Drop)]
pub struct Accepted {
    own: (),
}

/// The outcome for a caller that may wait for a place.
pub enum Put<T> {
    /// The piece came.
    Came(Came),
    /// No place is free. The waker is called when one is.
    Waits(T),
    /// No more is accepted.
    Closed(T),
    /// There was no memory for a place among the waiters.
    NoMemory(T),
}

/// Proof that no more is accepted. It has no drop: all threads that wait have to be notified.
#[must_use]
pub struct Shut {
    was_open: bool,
}

/// Why there is no piece.
pub enum Nothing {
    /// None is there yet.
    Empty,
    /// None is left, and none comes any more.
    Over(Ending),
}

/// Proof that no piece was left, and none comes any more. It has no drop: all threads that wait have to be notified.
#[must_use]
pub struct Ending {
    own: (),
}

/// Proof that all accepted work was taken, and no more is accepted. It stays so.
#[derive(Drop)]
pub struct Over {
    own: (),
}

impl<J: Work + Drop, K: Wake + Drop, R: Wait + Copy + Drop> Shared<J, K, R> {
    /// Makes the shared part with this many places. It takes memory for all of them.
    pub fn new(rt: R, alloc: Global, places: usize) -> Result<Self, NoMemory>
        requires { 0 < places }
        ensures { IfOk result (λ shared. (arc_value shared.entrance.shared).line.queue.capacity ≡ Some places) }
    {
        match channel::bounded(rt, alloc, places) {
            Ok((entrance, exit)) => Ok(Shared {
                entrance,
                exit,
                changed: Condvar::new(),
            }),
            Err(error) => Err(error),
        }
    }

    /// Makes one more entrance, which waits by itself. It takes no memory.
    pub fn entrance(&self) -> Result<Entrance<J, K, R>, NoMemory> {
        self.entrance.clone()
    }

    /// Accepts a piece where a place is free.
    pub fn try_put(&self, piece: Piece<J, K, R>) -> Result<Came, TrySendError<Piece<J, K, R>>>
        ensures { MayPut piece result }
    {
        match self.entrance.try_send(piece) {
            Ok(()) => Ok(Came { own: () }),
            Err(error) => Err(error),
        }
    }

    /// Whether each place has a piece. Others may change that at once.
    pub fn is_full(&self) -> bool {
        self.entrance.is_full()
    }

    /// Whether no more is accepted. It stays so.
    pub fn is_closed(&self) -> bool {
        self.entrance.is_closed()
    }

    /// Closes it. All who wait for a place or for a piece are notified. Answers whether work was accepted until now.
    pub fn close(&self) -> bool {
        self.shut().notify_all(&self.changed)
    }

    /// Closes the entrance, and wakes those who wait for a place.
    fn shut(&self) -> Shut {
        Shut {
            was_open: self.entrance.close(),
        }
    }

    /// Takes the oldest piece, and wakes one who waits for a place.
    pub fn take(&self) -> Result<Taken<J, K, R>, Nothing> {
        match self.exit.try_recv() {
            Ok(piece) => Ok(piece.take()),
            Err(TryRecvError::Empty) => Err(Nothing::Empty),
            Err(TryRecvError::Closed) => Err(Nothing::Over(Ending { own: () })),
        }
    }

    /// Waits until there is a change beyond those that were seen.
    pub fn wait(&self, rt: &R, seen: u64) {
        self.changed.sleep(rt, seen, Duration::MAX);
    }

    /// How many changes there were, wrapping.
    pub fn changes(&self) -> u64 {
        self.changed.notifications()
    }

    /// Notifies all threads that wait of the end.
    pub fn end(&self, ending: Ending) -> Over {
        ending.notify_all(&self.changed)
    }

    /// Notifies a thread of the piece that an entrance accepted.
    pub fn notify(&self, came: Came) -> Accepted {
        came.notify_one(&self.changed)
    }
}

/// Puts a piece in by an entrance, or waits for a place.
pub fn poll_put<T: Drop, K: Wake + Drop, R: Wait + Copy + Drop>(
    entrance: &mut Sender<T, K, Nobody, R>,
    waker: &K,
    item: T,
) -> Put<T>
    ensures { HasPut item result }
{
    let mut kept = Some(item);
    let polled = entrance.poll_send(waker, &mut kept);
    match (polled, kept) {
        (Poll::Ready(Ok(())), _) => Put::Came(Came { own: () }),
        (Poll::Pending, Some(item)) => Put::Waits(item),
        (Poll::Ready(Err(SendError::Closed(()))), Some(item)) => Put::Closed(item),
        (Poll::Ready(Err(SendError::NoMemory(()))), Some(item)) => Put::NoMemory(item),
        (_, None) => unreachable!(),
    }
}

impl Came {
    /// Notifies one thread that waits.
    fn notify_one(self, changed: &Condvar) -> Accepted {
        let Came { own } = self;
        changed.notify_one();
        Accepted { own }
    }
}

impl Shut {
    /// Notifies all threads that wait. Answers whether work was accepted until now.
    fn notify_all(self, changed: &Condvar) -> bool
        ensures { result ≡ self.was_open }
    {
        let Shut { was_open } = self;
        changed.notify_all();
        was_open
    }
}

impl Ending {
    /// Notifies all threads that wait.
    fn notify_all(self, changed: &Condvar) -> Over {
        let Ending { own } = self;
        changed.notify_all();
        Over { own }
    }
}
