ghost use Rattle.async_task.specs.declared.poll.Poll.TheVariants as poll;
ghost use Rattle.std.specs.Prelude.{◌≡◌, ◌⊎◌, IsSome, None};

use crate::spawner::Spawner;
use async_task::{Future, NoMemory, Poll, Wake};
use std::sync::Wait;
use waiting::channel::{Receiver, RecvError, SendError};

/// Takes messages `D` of a channel, and asks for a future for each: a message is a descriptor. While the intake is full it takes none.
///
/// It is ready once no message comes any more, or the intake is closed; a message that it took then is dropped with it. Ready with
/// `NoMemory`, it goes on when it is polled again. So it is spawned:
///
/// ```text
/// let acceptor = Acceptor::new(rt, calls, spawner);
/// intake.spawn(intake.admit(Job::Accept(acceptor))?)?.detach();
/// ```
pub struct Acceptor<
    D: Drop,
    A: Wake + Drop,
    K: Wake + Drop,
    B: Wake + Drop,
    R: Wait + Copy + Drop,
> {
    rt: R,
    messages: Receiver<D, A, K, R>,
    spawner: Spawner<D, K, B, R>,
    // One that came, and that nothing was asked for yet.
    next: Option<D>,
}

impl<D: Drop, A: Wake + Drop, K: Wake + Drop, B: Wake + Drop, R: Wait + Copy + Drop> Drop
    for Acceptor<D, A, K, B, R> {
    fn drop(self) {
        let Acceptor {
            rt: _,
            messages,
            spawner,
            next,
        } = self;
        drop(messages);
        drop(next);
        drop(spawner);
    }
}

impl<D: Drop, A: Wake + Drop, K: Wake + Drop, B: Wake + Drop, R: Wait + Copy + Drop> Acceptor<
    D,
    A,
    K,
    B,
    R,
> {
    /// Senders of the channel wait with wakers `A`. It takes no memory.
    pub fn new(rt: R, messages: Receiver<D, A, K, R>, spawner: Spawner<D, K, B, R>) -> Self
        ensures messages { result.messages ≡ messages }
        ensures spawner { result.spawner ≡ spawner }
        ensures next { result.next ≡ None }
    {
        Acceptor {
            rt,
            messages,
            spawner,
            next: None,
        }
    }
}

impl<D: Drop, A: Wake + Drop, K: Wake + Drop, B: Wake + Drop, R: Wait + Copy + Drop> Future<K>
    for Acceptor<D, A, K, B, R> {
    type Output = Result<(), NoMemory>;

    fn poll(&mut self, waker: &K) -> Poll<Result<(), NoMemory>>
        ensures { result ≡ poll.Pending → IsSome self.new.next ⊎ IsSome self.new.messages.waiting }
    {
        for _ in self.rt.forever() {
            match self.spawner.poll_spawn(waker, &mut self.next) {
                Poll::Pending => return Poll::Pending,
                Poll::Ready(Ok(())) => {}
                Poll::Ready(Err(SendError::Closed(()))) => return Poll::Ready(Ok(())),
                Poll::Ready(Err(SendError::NoMemory(()))) => return Poll::Ready(Err(NoMemory)),
            }
            match self.messages.poll_recv(waker) {
                Poll::Pending => return Poll::Pending,
                Poll::Ready(Ok(message)) => self.next = Some(message),
                Poll::Ready(Err(RecvError::Closed)) => return Poll::Ready(Ok(())),
                Poll::Ready(Err(RecvError::NoMemory)) => return Poll::Ready(Err(NoMemory)),
            }
        }
        unreachable!()
    }
}
