ghost use Rattle.std.specs.Prelude.{◌≡◌, ◌≤◌, IfOk, IfSome, IsSome, None, Ok, false};
ghost use Rattle.waiting.specs.Sending.{MayTrySend};
ghost use Rattle.waiting.specs.declared.channel.shared.Turn.TheVariants as turn;

use crate::channel::errors::TrySendError;
use crate::channel::line::{Ended, Line, Nothing, Sent};
use crate::event::Event;
use crate::listener::Listener;
use async_task::{Future, NoMemory, Poll, Wake};
use std::alloc::Global;
use std::sync::Wait;
use std::sync::atomic::AtomicU64;

/// What the senders and receivers of a channel share.
#[derive(Drop)]
pub struct Shared<T: Drop, A: Wake + Drop, B: Wake + Drop, R: Wait + Copy + Drop> {
    rt: R,
    line: Line<T>,
    /// Notified for each place that comes free.
    places: Event<A, R>,
    /// Notified for each message that comes.
    messages: Event<B, R>,
    /// How many senders there are.
    pub senders: AtomicU64,
    /// How many receivers there are.
    pub receivers: AtomicU64,
}

impl<T: Drop, A: Wake + Drop, B: Wake + Drop, R: Wait + Copy + Drop> Shared<T, A, B, R> {
    pub fn new(rt: R, alloc: Global, line: Line<T>) -> Result<Self, NoMemory>
        ensures { IfOk result (λ shared. shared.line ≡ line) }
    {
        let (free, came) = match (Event::new(rt, alloc), Event::new(rt, alloc)) {
            (Ok(free), Ok(came)) => (free, came),
            _ => return Err(NoMemory),
        };
        Ok(Shared {
            rt,
            line,
            places: free,
            messages: came,
            senders: AtomicU64::new(1),
            receivers: AtomicU64::new(1),
        })
    }

    /// Appends the message, and then notifies one who waits for a message.
    pub fn try_send(&self, message: T) -> Result<Sent, TrySendError<T>>
        ensures { MayTrySend self.now.line.queue.capacity message result }
    {
        match self.line.push(&self.rt, message) {
            Ok(came) => Ok(came.tell(&self.messages)),
            Err(error) => Err(error),
        }
    }

    /// Takes the oldest message, and then notifies one who waits for a place.
    pub fn try_recv(&self) -> Result<T, Nothing> {
        match self.line.pop(&self.rt) {
            Ok((message, freed)) => {
                freed.tell(&self.places);
                Ok(message)
            }
            Err(nothing) => Err(nothing),
        }
    }

    /// Closes the channel, and notifies all waiters. Answers whether the channel was open.
    pub fn close(&self) -> bool {
        let shut = self.line.close(&self.rt);
        shut.tell(&self.places, &self.messages)
    }

    /// Drops the messages that are left in a closed channel. A message whose sending began before the close is among them: a
    /// closed queue says that it is closed only once all appended messages are taken. So no message is left, and none comes.
    pub fn drain(&self) -> Ended {
        for _ in self.rt.forever() {
            match self.try_recv() {
                Ok(message) => drop(message),
                Err(Nothing::Over(ended)) => return ended,
                Err(Nothing::Empty) => {}
            }
        }
        unreachable!()
    }

    pub fn rt(&self) -> R
        ensures { result ≡ self.now.rt }
    {
        self.rt
    }

    pub fn places(&self) -> &Event<A, R>
        ensures { result.now ≡ self.now.places }
    {
        &self.places
    }

    pub fn messages(&self) -> &Event<B, R>
        ensures { result.now ≡ self.now.messages }
    {
        &self.messages
    }

    /// How many messages there are.
    pub fn len(&self) -> usize
        ensures { IfSome self.now.line.queue.capacity (λ places. result ≤ places) }
    {
        self.line.len(&self.rt)
    }

    /// Whether there is no message.
    pub fn is_empty(&self) -> bool {
        self.line.is_empty(&self.rt)
    }

    /// Whether each place has a message.
    pub fn is_full(&self) -> bool
        ensures { (self.now.line.queue.capacity ≡ None) → (result ≡ false) }
    {
        self.line.is_full(&self.rt)
    }

    /// Whether nothing is sent any more.
    pub fn is_closed(&self) -> bool {
        self.line.is_closed(&self.rt)
    }

    /// How many places there are.
    pub fn capacity(&self) -> Option<usize>
        ensures { result ≡ self.now.line.queue.capacity }
    {
        self.line.capacity()
    }
}

/// What a waiter has to do next.
pub enum Turn {
    /// It waits, and its waker is called.
    Waits,
    /// It looks again: it listens since now, or was notified.
    Looks,
}

/// Listens, or awaits the notification where it listens already.
pub fn go_on<K: Wake + Drop, R: Wait + Copy + Drop>(
    event: &Event<K, R>,
    waiting: &mut Option<Listener<K, R>>,
    waker: &K,
) -> Result<Turn, NoMemory>
    ensures waits { result ≡ Ok turn.Waits → IsSome waiting.new }
{
    match waiting.take() {
        None => match event.listen() {
            Ok(listener) => {
                *waiting = Some(listener);
                Ok(Turn::Looks)
            }
            Err(error) => Err(error),
        },
        Some(mut listener) => match listener.poll(waker) {
            Poll::Pending => {
                *waiting = Some(listener);
                Ok(Turn::Waits)
            }
            Poll::Ready(()) => Ok(Turn::Looks),
        },
    }
}
