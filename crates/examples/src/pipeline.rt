//! A pipeline on two threads: three stages that double numbers and hand them on through bounded queues. A stage that finds
//! its queue full or empty wakes itself and answers Pending, so that the others get on.
ghost use Rattle.std.specs.Prelude.{◌<◌};

use async_executor::Executor;
use async_task::{Future, Poll, Realm, Wake};
use blocking::ThreadWaker;
use concurrent_queue::{ConcurrentQueue, PopError};
use std::alloc::Global;
use std::io::{self, ErrorKind};
use std::sync::Wait;
use std::thread;
use workers::complete;

/// A queue between two stages, which lasts as long as the program.
type Belt = &'static ConcurrentQueue<u64>;

/// Doubles what comes through the first queue and puts it into the second; has a number where that was full.
#[derive(Drop)]
struct Stage<R>(R, Belt, Belt, Option<u64>);

impl<K: Wake, R: Wait> Future<K> for Stage<R> {
    type Output = ();

    fn poll(&mut self, waker: &K) -> Poll<()> {
        let Stage(rt, from, to, held) = self;
        if held.is_none() {
            match from.pop(rt) {
                Ok(number) => *held = Some(number.saturating_mul(2)),
                Err(PopError::Empty) => {}
                Err(PopError::Closed) => {
                    to.close(rt);
                    return Poll::Ready(());
                }
            }
        }
        if let Some(number) = *held {
            if to.push(rt, number).is_ok() {
                *held = None;
            }
        }
        waker.wake_by_ref();
        Poll::Pending
    }
}

fn belt(alloc: Global, places: usize) -> io::Result<Belt>
    requires { 0 < places }
{
    let queue = ConcurrentQueue::bounded(alloc, places).map_err(|_| ErrorKind::OutOfMemory)?;
    Ok(Box::leak(Box::new(alloc, queue)?))
}

#[test]
fn three_stages_double_a_thousand_numbers(rt: HostRuntime) -> io::Result<()> {
    let (alloc, realm) = (rt.alloc(), Realm::leak(rt, rt.alloc())?);
    let (source, end) = (belt(alloc, 1_000)?, belt(alloc, 1_000)?);
    let (first, second) = (belt(alloc, 4)?, belt(alloc, 4)?);
    for number in 1..=1_000u64 {
        let _ = source.push(&rt, number);
    }
    source.close(&rt);
    let stages = Executor::<_, _, ThreadWaker, _>::new(rt, alloc, realm, 3)?;
    let (Ok(one), Ok(two), Ok(three)) = (
        stages.spawn(Stage(rt, source, first, None)),
        stages.spawn(Stage(rt, first, second, None)),
        stages.spawn(Stage(rt, second, end, None)),
    ) else {
        return Err(ErrorKind::OutOfMemory.into());
    };
    one.detach();
    let other = || complete(&rt, alloc, &stages, two);
    let _ = thread::join(&rt, other, || complete(&rt, alloc, &stages, three));
    let sum = end.try_iter(&rt).fold(0, u64::saturating_add);
    assert!(rt; sum == 4_004_000);
    Ok(())
}
