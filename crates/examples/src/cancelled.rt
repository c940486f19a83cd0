//! A future that its handle cancels, on a queue of tasks. It is that of `first_task`.
use crate::first_task::Sum;
use async_task::{Awaiter, Future, Nobody, Poll, Realm, Runtime};
use ready_queue::{Places, QueueRealm, ReadyQueue};
use std::io;

/// Cancels a queued task, and says whether its end came with the next run of the queue, without an output.
fn ends_without_output<R: Runtime>(
    rt: R,
    realm: &'static QueueRealm<Sum, u64, Nobody, R>,
    places: &'static Places,
) -> bool {
    let queue = ReadyQueue::new(rt, realm, places);
    let Ok(task) = queue.spawn(Sum { left: 4, sum: 0 }) else {
        return false;
    };
    let nobody = Awaiter::Outside(Nobody);
    let mut cancel = task.cancel();
    let is_waiting = matches!(cancel.poll(&nobody), Poll::Pending);
    queue.run();
    is_waiting & matches!(cancel.poll(&nobody), Poll::Ready(Ok(None)))
}

#[test]
fn a_cancelled_future_has_no_output(rt: HostRuntime) -> io::Result<()> {
    let (realm, places) = (Realm::leak(rt, rt.alloc())?, Places::leak(rt.alloc(), 8)?);
    assert!(rt; ends_without_output(rt, realm, places));
    Ok(())
}
