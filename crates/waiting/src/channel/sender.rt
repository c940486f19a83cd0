ghost use Rattle.std.specs.Arc.{arc_value};
ghost use Rattle.std.specs.Prelude.{◌≡◌, ◌≤◌, None, Some, IfOk, IfSome, IsSome, Ok, false};
ghost use Rattle.async_task.specs.declared.poll.Poll.TheVariants as poll;
ghost use Rattle.waiting.specs.Sending.{IsBack, IsSentOrBack, MayTrySend};

use crate::channel::errors::{SendError, TrySendError};
use crate::channel::line::Sent;
use crate::channel::sending::{Tried, send_or_wait};
use crate::channel::shared::Shared;
use crate::listener::Listener;
use async_task::{Future, NoMemory, Poll, Wake};
use std::sync::atomic::Ordering::SeqCst;
use std::sync::{Arc, Wait};

/// Sends messages. The drop of the last sender closes the channel: what was sent can still be received.
///
/// It is `Sender` of the Rust crate `async-channel`, and waits with wakers of the type `A`. A message that isn't sent comes back
/// in the error: `Closed`, or `Full` of a `try_send` that finds no place. A sender that has to wait takes memory, as each message
/// of a channel without a bound does: they answer `NoMemory` where there is none. In `actor` of `examples` a thread sends, and
/// blocks while no place is free:
///
/// ```
/// for amount in 1..=100 {
///     let _ = block_on::<ThreadWaker, _, _>(&rt, alloc, mailbox.send(amount));
/// }
/// ```
pub struct Sender<T: Drop, A: Wake + Drop, B: Wake + Drop, R: Wait + Copy + Drop> {
    shared: Arc<Shared<T, A, B, R>>,
    waiting: Option<Listener<A, R>>,
}

/// Sends a message: a future that is ready once the message was sent, or the channel is closed. Dropped before that, it drops the
/// message unsent, and waits no more: a notification that came for it goes on to the next waiter.
#[derive(Drop)]
pub struct Send<'a, T: Drop, A: Wake + Drop, B: Wake + Drop, R: Wait + Copy + Drop> {
    sender: &'a Sender<T, A, B, R>,
    waiting: Option<Listener<A, R>>,
    message: Option<T>,
    // Set once the message was sent.
    sent: Option<Sent>,
}

impl<T: Drop, A: Wake + Drop, B: Wake + Drop, R: Wait + Copy + Drop> Sender<T, A, B, R> {
    pub(crate) fn new(shared: Arc<Shared<T, A, B, R>>) -> Self
        ensures shared { result.shared ≡ shared }
        ensures waits_not { result.waiting ≡ None }
    {
        Sender {
            shared,
            waiting: None,
        }
    }

    /// Makes one more sender; refused where there are too many. It takes no memory.
    pub fn clone(&self) -> Result<Self, NoMemory>
        ensures same { IfOk result (λ sender. arc_value sender.shared ≡ arc_value self.now.shared) }
    {
        match Arc::try_clone(&self.shared) {
            Ok(shared) => {
                shared.senders.fetch_add(1, SeqCst);
                Ok(Sender::new(shared))
            }
            Err(_) => Err(NoMemory),
        }
    }

    /// Sends a message where a place is free, and notifies one who waits for a message. It takes memory only in a channel without
    /// a bound.
    pub fn try_send(&self, message: T) -> Result<(), TrySendError<T>>
        ensures { MayTrySend (arc_value self.now.shared).line.queue.capacity message result }
    {
        match self.shared.try_send(message) {
            Ok(_sent) => Ok(()),
            Err(error) => Err(error),
        }
    }

    /// Sends a message, and waits for a place.
    pub fn send(&self, message: T) -> Send<'_, T, A, B, R>
        ensures message { result.message ≡ Some message }
        ensures sender { result.sender.now ≡ self.now }
        ensures waits_not { result.waiting ≡ None }
    {
        Send {
            sender: self,
            waiting: None,
            message: Some(message),
            sent: None,
        }
    }

    /// Polls as the future of `send` does, for a future that has the sender in a field. It sends the message that is there, and
    /// takes it out once it was sent. A message that wasn't sent stays. It takes memory where it has to wait. After a pending
    /// poll, a caller that won't poll again calls `give_up`, or drops the sender. Until then a notification may come that other
    /// waiters need.
    pub fn poll_send(
        &mut self,
        waker: &A,
        message: &mut Option<T>,
    ) -> Poll<Result<(), SendError<()>>>
        ensures sent { IsSentOrBack message.old message.new result }
        ensures nothing { message.old ≡ None → result ≡ poll.Ready (Ok tt) }
    {
        let Some(item) = message.take() else {
            return Poll::Ready(Ok(()));
        };
        match send_or_wait(&*self.shared, &mut self.waiting, waker, item) {
            Tried::Sent(_sent) => Poll::Ready(Ok(())),
            Tried::Waits(item) | Tried::Again(item) => {
                *message = Some(item);
                Poll::Pending
            }
            Tried::Refused(SendError::Closed(item)) => {
                *message = Some(item);
                Poll::Ready(Err(SendError::Closed(())))
            }
            Tried::Refused(SendError::NoMemory(item)) => {
                *message = Some(item);
                Poll::Ready(Err(SendError::NoMemory(())))
            }
        }
    }

    /// Waits no more, after a `poll_send` that was pending: a notification that came for it goes on to the next waiter. It may
    /// send again. It takes no memory.
    pub fn give_up(&mut self)
        ensures waits_not { self.new.waiting ≡ None }
        ensures same { self.new.shared ≡ self.old.shared }
    {
        drop(self.waiting.take());
    }

    fn shared(&self) -> &Shared<T, A, B, R>
        ensures { result.now ≡ arc_value self.now.shared }
    {
        &*self.shared
    }

    /// Closes the channel and notifies all waiters. Nothing is sent any more; what was sent can still be received. Answers whether
    /// the channel was open. It takes no memory.
    pub fn close(&self) -> bool {
        self.shared.close()
    }

    /// How many messages there are. Others may change that at once.
    pub fn len(&self) -> usize
        ensures { IfSome (arc_value self.now.shared).line.queue.capacity (λ places. result ≤ places) }
    {
        self.shared.len()
    }

    /// Whether there is no message. Others may change that at once.
    pub fn is_empty(&self) -> bool {
        self.shared.is_empty()
    }

    /// Whether each place has a message. Others may change that at once.
    pub fn is_full(&self) -> bool
        ensures { ((arc_value self.now.shared).line.queue.capacity ≡ None) → (result ≡ false) }
    {
        self.shared.is_full()
    }

    /// Whether the channel is closed. A closed channel stays closed.
    pub fn is_closed(&self) -> bool {
        self.shared.is_closed()
    }

    /// How many places the channel has.
    pub fn capacity(&self) -> Option<usize>
        ensures { result ≡ (arc_value self.now.shared).line.queue.capacity }
    {
        self.shared.capacity()
    }
}

impl<T: Drop, A: Wake + Drop, B: Wake + Drop, R: Wait + Copy + Drop> Drop for Sender<T, A, B, R> {
    /// Leaves the waiters. The last sender closes the channel.
    fn drop(self) {
        let Sender { shared, waiting } = self;
        drop(waiting);
        if shared.senders.fetch_sub(1, SeqCst) == 1 {
            shared.close();
        }
    }
}

impl<'a, T: Drop, A: Wake + Drop, B: Wake + Drop, R: Wait + Copy + Drop> Future<A>
    for Send<'a, T, A, B, R> {
    type Output = Result<(), SendError<T>>;

    fn poll(&mut self, waker: &A) -> Poll<Result<(), SendError<T>>>
        ensures sent { IsBack self.old.message self.new.message result }
        ensures nothing { self.old.message ≡ None → result ≡ poll.Ready (Ok tt) }
        ensures done { IsSome self.old.message → result ≡ poll.Ready (Ok tt) → IsSome self.new.sent }
    {
        let Some(item) = self.message.take() else {
            return Poll::Ready(Ok(()));
        };
        match send_or_wait(self.sender.shared(), &mut self.waiting, waker, item) {
            Tried::Sent(sent) => {
                self.sent = Some(sent);
                Poll::Ready(Ok(()))
            }
            Tried::Refused(error) => Poll::Ready(Err(error)),
            Tried::Waits(item) | Tried::Again(item) => {
                self.message = Some(item);
                Poll::Pending
            }
        }
    }
}
