//! One value, from one sender to one receiver. After `oneshot` of `futures`.
ghost use Rattle.std.specs.Arc.{arc_value};
ghost use Rattle.async_task.specs.declared.poll.Poll.TheVariants as poll;
ghost use Rattle.std.specs.Prelude.{◌≡◌, Err, None, IfErr, IfOk, IsSome};

use crate::guarded::Guarded;
use crate::slot::{Over, Received, Slot};
use async_task::{Future, NoMemory, Poll, Wake};
use std::alloc::Global;
use std::sync::{Arc, Wait};

/// The receiver gets no value: the sender went without sending, or an earlier poll took the value.
#[derive(Clone, Copy, Debug, PartialEq, Eq, Drop)]
pub struct Canceled;

/// Sends one value. The drop of a sender that sent none notifies the receiver that no value comes.
pub struct Sender<T: Drop, K: Wake + Drop, R: Wait + Copy + Drop> {
    slot: Arc<Guarded<Slot<T, K>>>,
    rt: R,
}

/// Receives one value: a future that is ready once the value was sent, or once the sender went. Each poll leaves its waker in the
/// place of the one before. Where no copy of the waker can be had it calls the waker, so that it is polled again. Its drop drops a
/// value that was sent and not taken; from then on a send is refused.
pub struct Receiver<T: Drop, K: Wake + Drop, R: Wait + Copy + Drop> {
    slot: Arc<Guarded<Slot<T, K>>>,
    rt: R,
    // Set once it has answered that no value comes.
    over: Option<Over>,
}

/// A sender and its receiver. It takes memory for the place of the value, and no later call takes any.
///
/// ```
/// let (sender, mut receiver) = oneshot::channel::<u64, Nobody, _>(rt, rt.alloc())?;
/// assert!(rt; matches!(receiver.poll(&Nobody), Poll::Pending));
/// assert!(rt; sender.send(1).is_ok());
/// assert!(rt; matches!(receiver.poll(&Nobody), Poll::Ready(Ok(1))));
/// ```
pub fn channel<T: Drop, K: Wake + Drop, R: Wait + Copy + Drop>(
    rt: R,
    alloc: Global,
) -> Result<(Sender<T, K, R>, Receiver<T, K, R>), NoMemory>
    ensures { IfOk result (λ ends. arc_value ends.0.slot ≡ arc_value ends.1.slot) }
{
    let Ok(slot) = Arc::new(alloc, Guarded::new(Slot::Empty)) else {
        return Err(NoMemory);
    };
    match Arc::try_clone(&slot) {
        Ok(same) => Ok((Sender { slot, rt }, Receiver::of(same, rt))),
        Err(_) => Err(NoMemory),
    }
}

impl<T: Drop, K: Wake + Drop, R: Wait + Copy + Drop> Sender<T, K, R> {
    /// Sends the value, and calls the receiver's waker. Where the receiver is gone the value comes back. It takes no memory.
    pub fn send(self, value: T) -> Result<(), T>
        ensures { IfErr result (λ back. back ≡ value) }
    {
        let Sender { slot, rt } = self;
        let put = slot.lock(&rt).put(value);
        match put {
            Ok(Some(waker)) => {
                waker.wake();
                Ok(())
            }
            Ok(None) => Ok(()),
            Err(value) => Err(value),
        }
    }
}

impl<T: Drop, K: Wake + Drop, R: Wait + Copy + Drop> Sender<T, K, R> {
    /// Whether the receiver is gone. It stays so, and a send is refused.
    pub fn is_canceled(&self) -> bool {
        self.slot.lock(&self.rt).is_closed()
    }
}

impl<T: Drop, K: Wake + Drop, R: Wait + Copy + Drop> Drop for Sender<T, K, R> {
    fn drop(self) {
        let Sender { slot, rt } = self;
        let waker = slot.lock(&rt).end();
        if let Some(waker) = waker {
            waker.wake();
        }
    }
}

impl<T: Drop, K: Wake + Drop, R: Wait + Copy + Drop> Receiver<T, K, R> {
    fn of(slot: Arc<Guarded<Slot<T, K>>>, rt: R) -> Self
        ensures slot { result.slot ≡ slot }
        ensures over { result.over ≡ None }
    {
        Receiver {
            slot,
            rt,
            over: None,
        }
    }
}

impl<T: Drop, K: Wake + Drop, R: Wait + Copy + Drop> Future<K> for Receiver<T, K, R> {
    type Output = Result<T, Canceled>;

    fn poll(&mut self, waker: &K) -> Poll<Result<T, Canceled>>
        ensures slot { self.new.slot ≡ self.old.slot }
        ensures over { result ≡ poll.Ready (Err (record {})) → IsSome self.new.over }
    {
        let copy = waker.clone();
        let is_left = copy.is_some();
        let received = self.slot.lock(&self.rt).receive(copy);
        match received {
            Received::Value(value, _copy) => Poll::Ready(Ok(value)),
            Received::Ended(over, _copy) => {
                self.over = Some(over);
                Poll::Ready(Err(Canceled))
            }
            Received::Waits(_before) => {
                if !is_left {
                    waker.wake_by_ref();
                }
                Poll::Pending
            }
        }
    }
}

impl<T: Drop, K: Wake + Drop, R: Wait + Copy + Drop> Drop for Receiver<T, K, R> {
    fn drop(self) {
        let Receiver {
            slot,
            rt,
            over: _over,
        } = self;
        let left = slot.lock(&rt).close();
        drop(left);
    }
}
