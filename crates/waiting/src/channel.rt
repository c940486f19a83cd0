//! Bounded channels, for any number of senders and receivers. After `async-channel`.
ghost use Rattle.std.specs.Arc.{arc_value};
ghost use Rattle.std.specs.Prelude.{◌≡◌, ◌<◌, IfOk, None, Some};

mod errors;
pub(crate) mod line;
mod receiver;
mod receiving;
mod sender;
mod sending;
mod shared;

use async_task::{NoMemory, Wake};
pub use errors::{RecvError, RecvTimeoutError, SendError, TryRecvError, TrySendError};
use line::Line;
pub use receiver::{Receiver, Recv};
pub use sender::{Send, Sender};
use shared::Shared;
use std::alloc::Global;
use std::sync::{Arc, Wait};

/// A sender and a receiver, whose wakers are of the types `A` and `B`.
pub type Ends<T, A, B, R> = (Sender<T, A, B, R>, Receiver<T, A, B, R>);

/// The ends of channels whose senders and receivers have one type of waker.
pub mod one_kind {
    /// A `Sender` that waits with this type of waker, as its receivers do.
    pub type Sender<T, K, R> = super::Sender<T, K, K, R>;

    /// A `Receiver` that waits with this type of waker, as its senders do.
    pub type Receiver<T, K, R> = super::Receiver<T, K, K, R>;
}

/// A sender and a receiver of a channel that holds this many messages. Senders wait with wakers of the type `A`, receivers with
/// wakers of the type `B`. It takes memory for all places.
///
/// ```
/// let (mut sender, mut receiver) = channel::bounded::<u64, Nobody, Nobody, _>(rt, rt.alloc(), 1)?;
/// assert!(rt; matches!(receiver.poll_recv(&Nobody), Poll::Pending));
/// assert!(rt; sender.try_send(1).is_ok());
/// assert!(rt; matches!(sender.try_send(2), Err(TrySendError::Full(2))));
/// let mut message = Some(3);
/// assert!(rt; matches!(sender.poll_send(&Nobody, &mut message), Poll::Pending));
/// assert!(rt; matches!(receiver.recv().poll(&Nobody), Poll::Ready(Ok(1))));
/// assert!(rt; matches!(sender.poll_send(&Nobody, &mut message), Poll::Ready(Ok(()))));
/// drop(sender);
/// assert!(rt; matches!(receiver.poll_recv(&Nobody), Poll::Ready(Ok(3))));
/// assert!(rt; matches!(receiver.try_recv(), Err(TryRecvError::Closed)));
/// ```
pub fn bounded<T: Drop, A: Wake + Drop, B: Wake + Drop, R: Wait + Copy + Drop>(
    rt: R,
    alloc: Global,
    places: usize,
) -> Result<Ends<T, A, B, R>, NoMemory>
    requires { 0 < places }
    ensures same { IfOk result (λ ends. arc_value ends.0.shared ≡ arc_value ends.1.shared) }
    ensures places { IfOk result (λ ends. (arc_value ends.0.shared).line.queue.capacity ≡ Some places) }
{
    match Line::bounded(alloc, places) {
        Ok(line) => ends(rt, alloc, line),
        Err(error) => Err(error),
    }
}

/// A sender and a receiver of a channel that holds as many messages as memory does, so that no sender waits. A message takes
/// memory; a send answers `NoMemory` where there is none.
///
/// ```
/// let (sender, receiver) = channel::unbounded::<u64, Nobody, Nobody, _>(rt, rt.alloc())?;
/// assert!(rt; sender.try_send(1).is_ok() & sender.try_send(2).is_ok());
/// assert!(rt; (sender.len() == 2) & sender.capacity().is_none() & !sender.is_full());
/// assert!(rt; matches!(receiver.recv().poll(&Nobody), Poll::Ready(Ok(1))));
/// ```
pub fn unbounded<T: Drop, A: Wake + Drop, B: Wake + Drop, R: Wait + Copy + Drop>(
    rt: R,
    alloc: Global,
) -> Result<Ends<T, A, B, R>, NoMemory>
    ensures same { IfOk result (λ ends. arc_value ends.0.shared ≡ arc_value ends.1.shared) }
    ensures places { IfOk result (λ ends. (arc_value ends.0.shared).line.queue.capacity ≡ None) }
{
    ends(rt, alloc, Line::unbounded(alloc))
}

/// The ends of a channel over this queue.
fn ends<T: Drop, A: Wake + Drop, B: Wake + Drop, R: Wait + Copy + Drop>(
    rt: R,
    alloc: Global,
    line: Line<T>,
) -> Result<Ends<T, A, B, R>, NoMemory>
    ensures same { IfOk result (λ ends. arc_value ends.0.shared ≡ arc_value ends.1.shared) }
    ensures line { IfOk result (λ ends. (arc_value ends.0.shared).line ≡ line) }
{
    let shared = match Shared::new(rt, alloc, line) {
        Ok(shared) => shared,
        Err(error) => return Err(error),
    };
    let Ok(shared) = Arc::new(alloc, shared) else {
        return Err(NoMemory);
    };
    match Arc::try_clone(&shared) {
        Ok(same) => Ok((Sender::new(shared), Receiver::new(same))),
        Err(_) => Err(NoMemory),
    }
}
