ghost use Rattle.std.specs.Arc.{arc_value};
ghost use Rattle.std.specs.Prelude.{◌≡◌, ◌≤◌, Err, None, IfOk, IfSome, IsSome, false};
ghost use Rattle.async_task.specs.declared.poll.Poll.TheVariants as poll;
ghost use Rattle.waiting.specs.declared.channel.errors.RecvError.TheVariants as recv;
ghost use Rattle.waiting.specs.declared.channel.receiving.Heard.TheVariants as heard;

use crate::channel::errors::{RecvError, TryRecvError};
use crate::channel::line::{Ended, Nothing};
use crate::channel::receiving::{Heard, receive_or_wait};
use crate::channel::shared::Shared;
use crate::listener::Listener;
use async_task::{Future, NoMemory, Poll, Wake};
use std::sync::atomic::Ordering::SeqCst;
use std::sync::{Arc, Wait};

/// Receives messages, each of which goes to one receiver, the oldest first. The drop of the last receiver closes the channel, and
/// drops the messages that are left.
///
/// It is `Receiver` of the Rust crate `async-channel`, and waits with wakers of the type `B`. It answers `Closed` once the channel
/// is closed and empty. A receiver that has to wait takes memory: it answers `NoMemory` where there is none. In `actor` of
/// `examples` a future has its receiver in a field, and polls that:
///
/// ```
/// match self.1.poll_recv(waker) {
///     Poll::Pending => return Poll::Pending,
///     Poll::Ready(Ok(amount)) => self.2 = self.2.saturating_add(amount),
///     Poll::Ready(Err(_)) => return Poll::Ready(self.2),
/// }
/// ```
pub struct Receiver<T: Drop, A: Wake + Drop, B: Wake + Drop, R: Wait + Copy + Drop> {
    shared: Arc<Shared<T, A, B, R>>,
    waiting: Option<Listener<B, R>>,
    // Set once it has answered that nothing comes any more.
    ended: Option<Ended>,
}

/// Receives a message: a future that is ready once a message came, or the channel is closed and empty. Dropped before, it takes no
/// message and waits no more: a notification that came for it goes on to the next waiter.
#[derive(Drop)]
pub struct Recv<'a, T: Drop, A: Wake + Drop, B: Wake + Drop, R: Wait + Copy + Drop> {
    receiver: &'a Receiver<T, A, B, R>,
    waiting: Option<Listener<B, R>>,
    // Set once it has answered that nothing comes any more.
    ended: Option<Ended>,
}

impl<T: Drop, A: Wake + Drop, B: Wake + Drop, R: Wait + Copy + Drop> Receiver<T, A, B, R> {
    pub(crate) fn new(shared: Arc<Shared<T, A, B, R>>) -> Self
        ensures shared { result.shared ≡ shared }
        ensures waits_not { result.waiting ≡ None }
    {
        Receiver {
            shared,
            waiting: None,
            ended: None,
        }
    }

    /// Makes one more receiver; refused where there are too many. It takes no memory.
    pub fn clone(&self) -> Result<Self, NoMemory>
        ensures same { IfOk result (λ receiver. arc_value receiver.shared ≡ arc_value self.now.shared) }
    {
        match Arc::try_clone(&self.shared) {
            Ok(shared) => {
                shared.receivers.fetch_add(1, SeqCst);
                Ok(Receiver::new(shared))
            }
            Err(_) => Err(NoMemory),
        }
    }

    /// Takes the oldest message, where one is there, and notifies one who waits for a place. It takes no memory.
    pub fn try_recv(&self) -> Result<T, TryRecvError> {
        match self.shared.try_recv() {
            Ok(message) => Ok(message),
            Err(Nothing::Empty) => Err(TryRecvError::Empty),
            Err(Nothing::Over(_ended)) => Err(TryRecvError::Closed),
        }
    }

    /// Receives a message, and waits for one.
    pub fn recv(&self) -> Recv<'_, T, A, B, R>
        ensures receiver { result.receiver.now ≡ self.now }
        ensures waits_not { result.waiting ≡ None }
    {
        Recv {
            receiver: self,
            waiting: None,
            ended: None,
        }
    }

    /// Polls as the future of `recv` does, for a future that has the receiver in a field. It takes memory where it has to wait.
    /// After a pending poll, a caller that won't poll again calls `give_up`, or drops the receiver. Until then a notification may
    /// come that other waiters need.
    pub fn poll_recv(&mut self, waker: &B) -> Poll<Result<T, RecvError>>
        ensures waits { result ≡ poll.Pending → IsSome self.new.waiting }
        ensures over { result ≡ poll.Ready (Err recv.Closed) → IsSome self.new.ended }
    {
        answer(
            receive_or_wait(&*self.shared, &mut self.waiting, waker),
            &mut self.ended,
        )
    }

    /// Waits no more, after a `poll_recv` that was pending: a notification that came for it goes on to the next waiter. It may
    /// receive again. It takes no memory.
    pub fn give_up(&mut self)
        ensures waits_not { self.new.waiting ≡ None }
        ensures same { (self.new.shared ≡ self.old.shared) × (self.new.ended ≡ self.old.ended) }
    {
        drop(self.waiting.take());
    }

    fn shared(&self) -> &Shared<T, A, B, R>
        ensures { result.now ≡ arc_value self.now.shared }
    {
        &*self.shared
    }

    /// Closes the channel and notifies all waiters. Nothing is sent any more; what was sent can still be received. Answers whether
    /// the channel was open. It takes no memory.
    pub fn close(&self) -> bool {
        self.shared.close()
    }

    /// How many messages there are. Others may change that at once.
    pub fn len(&self) -> usize
        ensures { IfSome (arc_value self.now.shared).line.queue.capacity (λ places. result ≤ places) }
    {
        self.shared.len()
    }

    /// Whether there is no message. Others may change that at once.
    pub fn is_empty(&self) -> bool {
        self.shared.is_empty()
    }

    /// Whether each place has a message. Others may change that at once.
    pub fn is_full(&self) -> bool
        ensures { ((arc_value self.now.shared).line.queue.capacity ≡ None) → (result ≡ false) }
    {
        self.shared.is_full()
    }

    /// Whether the channel is closed. A closed channel stays closed.
    pub fn is_closed(&self) -> bool {
        self.shared.is_closed()
    }

    /// How many places the channel has.
    pub fn capacity(&self) -> Option<usize>
        ensures { result ≡ (arc_value self.now.shared).line.queue.capacity }
    {
        self.shared.capacity()
    }
}

/// What a poll answers. It keeps the end of the channel that it found.
fn answer<T>(found: Heard<T>, end: &mut Option<Ended>) -> Poll<Result<T, RecvError>>
    ensures waits { result ≡ poll.Pending → found ≡ heard.Waits }
    ensures over { result ≡ poll.Ready (Err recv.Closed) → IsSome end.new }
{
    match found {
        Heard::Message(message) => Poll::Ready(Ok(message)),
        Heard::Waits => Poll::Pending,
        Heard::Over(ended) => {
            *end = Some(ended);
            Poll::Ready(Err(RecvError::Closed))
        }
        Heard::NoMemory => Poll::Ready(Err(RecvError::NoMemory)),
    }
}

impl<T: Drop, A: Wake + Drop, B: Wake + Drop, R: Wait + Copy + Drop> Drop for Receiver<T, A, B, R> {
    /// Leaves the waiters. The last receiver closes the channel, and drops the messages that are left.
    fn drop(self) {
        let Receiver {
            shared,
            waiting,
            ended: _ended,
        } = self;
        drop(waiting);
        if shared.receivers.fetch_sub(1, SeqCst) == 1 {
            shared.close();
            let _ended = shared.drain();
        }
    }
}

impl<'a, T: Drop, A: Wake + Drop, B: Wake + Drop, R: Wait + Copy + Drop> Future<B>
    for Recv<'a, T, A, B, R> {
    type Output = Result<T, RecvError>;

    fn poll(&mut self, waker: &B) -> Poll<Result<T, RecvError>>
        ensures receiver { self.new.receiver ≡ self.old.receiver }
        ensures waits { result ≡ poll.Pending → IsSome self.new.waiting }
        ensures over { result ≡ poll.Ready (Err recv.Closed) → IsSome self.new.ended }
    {
        answer(
            receive_or_wait(self.receiver.shared(), &mut self.waiting, waker),
            &mut self.ended,
        )
    }
}
