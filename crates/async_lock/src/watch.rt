//! The newest of values, for those who follow it. After `watch` of `tokio`.
ghost use Rattle.std.specs.Arc.{arc_value};
ghost use Rattle.std.specs.Prelude.{◌≡◌, IfErr, IfOk, None};

mod changed;
pub(crate) mod latest;
mod receiver;
mod sender;
mod shared;

use crate::errors::NoMemoryFor;
use async_task::Wake;
pub use changed::Changed;
pub use receiver::Receiver;
pub use sender::Sender;
use shared::Shared;
use std::alloc::Global;
use std::sync::{Arc, Wait};
pub use waiting::channel::RecvError;

/// A sender and a receiver.
pub type Ends<T, K, R> = (Sender<T, K, R>, Receiver<T, K, R>);

/// A sender and a receiver of the newest of values. It is this value at first, which the receiver has seen. It takes memory; where
/// there is none the value comes back.
///
/// ```
/// let (sender, mut receiver) = watch::channel::<u64, Nobody, R>(rt, alloc, 1)?;
/// let waits = matches!(receiver.poll_changed(&Nobody), Poll::Pending);
/// let sent = sender.send(2).is_ok() & sender.send(3).is_ok();
/// let once = matches!(receiver.changed().poll(&Nobody), Poll::Ready(Ok(())));
/// let newest = receiver.borrow()?;
/// ```
pub fn channel<T: Drop, K: Wake + Drop, R: Wait + Copy + Drop>(
    rt: R,
    alloc: Global,
    value: T,
) -> Result<Ends<T, K, R>, NoMemoryFor<T>>
    ensures same { IfOk result (λ ends. arc_value ends.0.shared ≡ arc_value ends.1.shared) }
    ensures seen { IfOk result (λ ends. ends.1.seen ≡ 0) }
    ensures waits_not { IfOk result (λ ends. ends.1.seat ≡ None) }
    ensures refused { IfErr result (λ error. error.0 ≡ value) }
{
    let Ok(shared) = Arc::new(alloc, Shared::new(alloc)) else {
        return Err(NoMemoryFor(value));
    };
    let Ok(same) = Arc::try_clone(&shared) else {
        return Err(NoMemoryFor(value));
    };
    match Arc::new(alloc, value) {
        Ok(first) => {
            shared.begin(&rt, first);
            Ok((Sender::new(rt, alloc, shared), Receiver::new(rt, same, 0)))
        }
        Err(failed) => Err(NoMemoryFor(failed.value)),
    }
}
