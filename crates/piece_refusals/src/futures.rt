//! A list of futures, and a receive that has only so much time. The first who waits takes no memory.
use async_task::{Future, Nobody, Poll};
use combinators::{FuturesUnordered, RecvTimeoutError, recv_timeout};
use refusal_rows::{Call, Place, Report};
use std::alloc::Global;
use std::sync::Wait;
use std::time::{Clock, Duration};
use timer::{Sleep, Timer, TimerError};
use waiting::channel;
use waiting::channel::one_kind::{Receiver, Sender};

/// Ready with its number at once.
#[derive(Drop)]
struct Number(u64);

impl Future<Nobody> for Number {
    type Output = u64;

    fn poll(&mut self, _waker: &Nobody) -> Poll<u64> {
        Poll::Ready(self.0)
    }
}

/// Makes each call, and says whether all was as it has to be.
pub fn try_futures<R: Clock + Wait + Copy + Drop>(
    rt: R,
    alloc: Global,
    report: &mut Report,
) -> bool {
    report.come_to(Place::Combinators);
    gather(alloc, report) & receive(rt, alloc, report)
}

/// Six are gathered. One that is refused comes back, and those before it are there.
fn gather(alloc: Global, report: &mut Report) -> bool {
    let mut futures = FuturesUnordered::new(alloc);
    for number in 0u64..6 {
        let mut pushed = futures.push(Number(number));
        if let Err(future) = pushed {
            report.is_refused(Call::Push);
            report.expect((future.0 == number) & (u64::try_from(futures.len()) == Ok(number)));
            pushed = futures.push(future);
        }
        report.expect(matches!(pushed, Ok(it) if it == number));
    }
    for number in 0u64..6 {
        report.expect(
            matches!(futures.poll_next(&Nobody), Poll::Ready(Some((it, output))) if (it == number) & (output == number)),
        );
    }
    matches!(futures.poll_next(&Nobody), Poll::Ready(None))
}

/// Two receive, of which the second has an hour. One that was refused a place among those who wait has received nothing, and isn't called.
fn receive<R: Clock + Wait + Copy + Drop>(rt: R, alloc: Global, report: &mut Report) -> bool {
    let Some(sleep) = sleep(rt, alloc, report) else {
        return false;
    };
    let Some((sender, mut first)) = channel(rt, alloc, report) else {
        return false;
    };
    report.come_to(Place::Combinators);
    let Ok(second) = first.clone() else {
        return false;
    };
    let mut timed = recv_timeout(second, sleep);
    let waits = matches!(first.poll_recv(&Nobody), Poll::Pending);
    let mut polled = timed.poll(&Nobody);
    if let Poll::Ready(Err(RecvTimeoutError::NoMemory)) = polled {
        report.is_refused(Call::TimedRecv);
        polled = timed.poll(&Nobody);
    }
    let both_wait = waits & matches!(polled, Poll::Pending);
    let sent = sender.try_send(1).is_ok() & sender.try_send(2).is_ok();
    let has = matches!(first.poll_recv(&Nobody), Poll::Ready(Ok(1)));
    both_wait & sent & has & matches!(timed.poll(&Nobody), Poll::Ready(Ok(2)))
}

/// Sleeps for an hour.
fn sleep<R: Clock + Wait + Copy + Drop>(
    rt: R,
    alloc: Global,
    report: &mut Report,
) -> Option<Sleep<Nobody, R>> {
    report.come_to(Place::Timer);
    let mut made = Timer::new(rt, alloc, 1);
    if let Err(TimerError::NoMemory) = made {
        report.is_refused(Call::New);
        made = Timer::new(rt, alloc, 1);
    }
    made.ok()?.sleep(Duration::from_secs(3_600)).ok()
}

/// A channel of two places.
fn channel<R: Wait + Copy + Drop>(
    rt: R,
    alloc: Global,
    report: &mut Report,
) -> Option<(Sender<u64, Nobody, R>, Receiver<u64, Nobody, R>)> {
    report.come_to(Place::Waiting);
    let mut made = channel::bounded(rt, alloc, 2);
    if made.is_err() {
        report.is_refused(Call::Channel);
        made = channel::bounded(rt, alloc, 2);
    }
    made.ok()
}
