//! What a script knows of its futures.

ghost use Rattle.std.specs.Prelude.{◌≡◌, ◌+◌, ◌-◌, None, Some};
ghost use Rattle.simulator.specs.Play as play;
ghost use Rattle.simulator.specs.Turn as turns;

use executor_model::{Reply, Waker};

/// How far a poll of a future has come.
#[derive(Clone, Copy)]
pub enum Stage {
    /// It has begun.
    Begun,
    /// It has made the call of its item.
    Asked,
    /// It has put a new waker in the place of this one, which is still to be let go.
    Replaced(u64),
}

/// One accepted future, as the script sees it.
#[derive(Clone, Copy)]
pub struct Future {
    /// The place in the script of the command that spawned it.
    pub command: usize,
    /// The place of the item that says what it does at its next poll.
    pub next: usize,
    /// Of the handles that its items name, it has let go of those before this place.
    pub let_go: usize,
    /// How far its poll has come.
    pub stage: Stage,
    /// The number of the waker that is kept of it.
    pub kept: Option<u64>,
    /// Whether another future, or a run, holds its handle.
    pub held: bool,
    /// The waker that the last poll of its handle was given.
    pub given: Waker,
    /// What it gives.
    pub output: u64,
}

impl Future {
    /// A future that was just accepted, spawned by the command at this place.
    pub fn new(command: usize) -> Future
        ensures { result ≡ play.new_future command }
    {
        Future {
            command,
            next: 0,
            let_go: 0,
            stage: Stage::Begun,
            kept: None,
            held: false,
            given: Waker::Outside(0),
            output: 0,
        }
    }

    /// This waker is kept, or none, and the one that was kept before is to be let go.
    pub fn keep(self, waker: Option<u64>) -> Future
        ensures { result ≡ play.keeping waker self }
    {
        let stage = match self.kept {
            Some(old) => Stage::Replaced(old),
            None => self.stage,
        };
        Future {
            stage,
            kept: waker,
            ..self
        }
    }

    /// Its poll has ended, where it has so many items.
    pub fn end_poll(self, count: usize) -> Future
        ensures { result ≡ turns.polled count self }
    {
        let next = if self.next < count.saturating_sub(1) {
            self.next + 1
        } else {
            self.next
        };
        Future {
            next,
            stage: Stage::Begun,
            ..self
        }
    }
}

/// What a future gives that polled the handle of another: twice the output of that one, or 0 where
/// that was cancelled.
pub fn doubled(reply: Reply, output: u64) -> Option<u64>
    ensures { result ≡ turns.doubled reply output }
{
    match reply {
        Reply::Ready => Some(output.saturating_mul(2)),
        Reply::Cancelled => Some(0),
        _ => None,
    }
}
