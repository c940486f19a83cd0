//! A future on a queue of tasks, with its handle.
use async_task::{Awaiter, Future, Nobody, Poll, Realm, Runtime, Wake};
use ready_queue::{Places, QueueRealm, ReadyQueue};
use std::io;

/// A future that adds the numbers from `left` down to 1, one a poll.
#[derive(Drop)]
pub struct Sum {
    pub left: u64,
    pub sum: u64,
}

impl<K: Wake> Future<K> for Sum {
    type Output = u64;

    fn poll(&mut self, waker: &K) -> Poll<u64> {
        if self.left == 0 {
            return Poll::Ready(self.sum);
        }
        self.sum = self.sum.saturating_add(self.left);
        self.left -= 1;
        waker.wake_by_ref();
        Poll::Pending
    }
}

/// Runs the future on a queue, and answers its output.
fn run<R: Runtime>(
    rt: R,
    realm: &'static QueueRealm<Sum, u64, Nobody, R>,
    places: &'static Places,
) -> Option<u64> {
    let queue = ReadyQueue::new(rt, realm, places);
    let Ok(mut task) = queue.spawn(Sum { left: 4, sum: 0 }) else {
        return None;
    };
    queue.run();
    match task.poll(&Awaiter::Outside(Nobody)) {
        Poll::Ready(Ok(sum)) => Some(sum),
        _ => None,
    }
}

#[test]
fn a_future_runs_on_a_queue(rt: HostRuntime) -> io::Result<()> {
    let (realm, places) = (Realm::leak(rt, rt.alloc())?, Places::leak(rt.alloc(), 8)?);
    assert!(rt; run(rt, realm, places) == Some(10));
    Ok(())
}
