//! A receive with a time limit.
ghost use Rattle.async_task.specs.declared.poll.Poll.TheVariants as poll;
ghost use Rattle.combinators.specs.Receiving.{HasReceived};
ghost use Rattle.std.specs.Prelude.{◌≡◌, Err, None};

use async_task::{Future, Poll, Wake};
use std::sync::Wait;
use timer::{Sleep, Stopped};
use waiting::channel::{Receiver, RecvError, RecvTimeoutError};

/// Receives a message within the time of a sleep: a future that is ready with the message, or with an error. It has the receiver
/// itself, and so lies in a field of another. Where the message is there and the time is up, it answers the message.
///
/// Once it is ready it waits no more: a notification that came for it went on to the next waiter. It may be polled again: then it
/// receives the next message, in the time that is left, or in that of `set_sleep`. After a pending poll, a caller that won't poll
/// again yet calls `give_up`. Dropped, it leaves the waiters and the sleepers.
#[derive(Drop)]
pub struct RecvTimeout<T: Drop, A: Wake + Drop, B: Wake + Drop, R: Wait + Copy + Drop> {
    pub(crate) receiver: Receiver<T, A, B, R>,
    pub(crate) sleep: Sleep<B, R>,
}

impl<T: Drop, A: Wake + Drop, B: Wake + Drop, R: Wait + Copy + Drop> RecvTimeout<T, A, B, R> {
    /// Another sleep limits the receives from now on. The sleep before is dropped. It takes no memory.
    pub fn set_sleep(&mut self, sleep: Sleep<B, R>)
        ensures sleep { self.new.sleep ≡ sleep }
        ensures same { self.new.receiver ≡ self.old.receiver }
    {
        self.sleep = sleep;
    }

    /// Waits for no message any more: a notification that came for it goes on to the next waiter. It may receive again. It takes
    /// no memory.
    pub fn give_up(&mut self)
        ensures waits_not { self.new.receiver.waiting ≡ None }
        ensures channel { (self.new.receiver.shared ≡ self.old.receiver.shared) × (self.new.receiver.ended ≡ self.old.receiver.ended) }
        ensures sleep { self.new.sleep ≡ self.old.sleep }
    {
        self.receiver.give_up();
    }

    /// Ends a poll with this error, and waits no more.
    fn end(&mut self, error: RecvTimeoutError) -> Poll<Result<T, RecvTimeoutError>>
        ensures answer { result ≡ poll.Ready (Err error) }
        ensures waits_not { self.new.receiver.waiting ≡ None }
        ensures ended { self.new.receiver.ended ≡ self.old.receiver.ended }
        ensures sleep { self.new.sleep ≡ self.old.sleep }
    {
        self.give_up();
        Poll::Ready(Err(error))
    }

    /// Takes out the receiver, which waits for no message. It takes no memory.
    pub fn into_receiver(self) -> Receiver<T, A, B, R>
        ensures waits_not { result.waiting ≡ None }
        ensures same { result.shared ≡ self.receiver.shared }
    {
        let RecvTimeout {
            mut receiver,
            sleep,
        } = self;
        drop(sleep);
        receiver.give_up();
        receiver
    }
}

impl<T: Drop, A: Wake + Drop, B: Wake + Drop, R: Wait + Copy + Drop> Future<B>
    for RecvTimeout<T, A, B, R> {
    type Output = Result<T, RecvTimeoutError>;

    /// A poll takes memory where it has to wait.
    fn poll(&mut self, waker: &B) -> Poll<Result<T, RecvTimeoutError>>
        ensures { HasReceived self.new.receiver.waiting self.new.sleep self.new.receiver.ended result }
    {
        match self.receiver.poll_recv(waker) {
            Poll::Ready(Ok(message)) => {
                self.give_up();
                Poll::Ready(Ok(message))
            }
            Poll::Ready(Err(RecvError::Closed)) => self.end(RecvTimeoutError::Closed),
            Poll::Ready(Err(RecvError::NoMemory)) => self.end(RecvTimeoutError::NoMemory),
            Poll::Pending => match self.sleep.poll(waker) {
                Poll::Pending => Poll::Pending,
                Poll::Ready(Ok(())) => self.end(RecvTimeoutError::Elapsed),
                Poll::Ready(Err(Stopped)) => self.end(RecvTimeoutError::Stopped),
            },
        }
    }
}
