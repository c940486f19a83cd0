//! Functions that make the futures.
ghost use Rattle.std.specs.Prelude.{◌≡◌, Some};
ghost use Rattle.waiting.specs.declared.both.Awaited.TheVariants as awaited;

use crate::all_of_four::Join4;
use crate::all_of_three::Join3;
use crate::first_of_three::Select3;
use crate::timed_recv::RecvTimeout;
use crate::tried_three::TryJoin3;
use crate::tried_two::TryJoin;
use async_task::Wake;
use std::sync::Wait;
use timer::Sleep;
use waiting::Awaited;
use waiting::channel::Receiver;

/// Awaits three futures at once. Takes no memory.
///
/// ```
/// let mut all = join3(ready(1u64), yield_now(), ready(3u64));
/// assert!(rt; matches!(all.poll(&Nobody), Poll::Pending));
/// assert!(rt; matches!(all.poll(&Nobody), Poll::Ready((1, (), 3))));
/// ```
pub fn join3<A, X, B, Y, C, Z>(first: A, second: B, third: C) -> Join3<A, X, B, Y, C, Z>
    ensures first { result.first ≡ awaited.Waiting first }
    ensures second { result.second ≡ awaited.Waiting second }
    ensures third { result.third ≡ awaited.Waiting third }
{
    Join3 {
        first: Awaited::Waiting(first),
        second: Awaited::Waiting(second),
        third: Awaited::Waiting(third),
    }
}

/// Awaits four futures at once. Takes no memory.
///
/// ```
/// let mut all = join4(ready(1u64), yield_now(), ready(3u64), ready(4u64));
/// assert!(rt; matches!(all.poll(&Nobody), Poll::Pending));
/// assert!(rt; matches!(all.poll(&Nobody), Poll::Ready((1, (), 3, 4))));
/// ```
pub fn join4<A, X, B, Y, C, Z, D, V>(
    first: A,
    second: B,
    third: C,
    fourth: D,
) -> Join4<A, X, B, Y, C, Z, D, V>
    ensures first { result.first ≡ awaited.Waiting first }
    ensures second { result.second ≡ awaited.Waiting second }
    ensures third { result.third ≡ awaited.Waiting third }
    ensures fourth { result.fourth ≡ awaited.Waiting fourth }
{
    Join4 {
        first: Awaited::Waiting(first),
        second: Awaited::Waiting(second),
        third: Awaited::Waiting(third),
        fourth: Awaited::Waiting(fourth),
    }
}

/// Awaits two futures that may fail at once, up to the first error. Takes no memory.
///
/// ```
/// let mut both = try_join(pending::<Result<u64, u64>>(), ready(Err::<u64, u64>(7)));
/// assert!(rt; matches!(both.poll(&Nobody), Poll::Ready(Err(7))));
/// ```
pub fn try_join<A, X, B, Y>(first: A, second: B) -> TryJoin<A, X, B, Y>
    ensures first { result.first ≡ awaited.Waiting first }
    ensures second { result.second ≡ awaited.Waiting second }
{
    TryJoin {
        first: Awaited::Waiting(first),
        second: Awaited::Waiting(second),
    }
}

/// Awaits three futures that may fail at once, up to the first error. Takes no memory.
///
/// ```
/// let mut all = try_join3(
///     ready(Ok::<u64, u64>(1)),
///     ready(Ok::<u64, u64>(2)),
///     ready(Ok::<u64, u64>(3)),
/// );
/// assert!(rt; matches!(all.poll(&Nobody), Poll::Ready(Ok((1, 2, 3)))));
/// ```
pub fn try_join3<A, X, B, Y, C, Z>(first: A, second: B, third: C) -> TryJoin3<A, X, B, Y, C, Z>
    ensures first { result.first ≡ awaited.Waiting first }
    ensures second { result.second ≡ awaited.Waiting second }
    ensures third { result.third ≡ awaited.Waiting third }
{
    TryJoin3 {
        first: Awaited::Waiting(first),
        second: Awaited::Waiting(second),
        third: Awaited::Waiting(third),
    }
}

/// Awaits the first of three futures. Takes no memory.
///
/// ```
/// let mut first = select3(pending::<u64>(), yield_now(), pending::<u64>());
/// assert!(rt; matches!(first.poll(&Nobody), Poll::Pending));
/// assert!(rt;
///     matches!(
///         first.poll(&Nobody),
///         Poll::Ready(Either3::Second(((), _, _)))
///     )
/// );
/// ```
pub fn select3<A, B, C>(first: A, second: B, third: C) -> Select3<A, B, C>
    ensures { result.all ≡ Some (first, second, third) }
{
    Select3 {
        all: Some((first, second, third)),
    }
}

/// Receives a message within the time of this sleep. Takes no memory.
///
/// ```
/// let mut timed = recv_timeout(receiver, timer.sleep(Duration::ZERO)?);
/// assert!(rt; sender.try_send(1).is_ok());
/// assert!(rt; matches!(timed.poll(&Nobody), Poll::Ready(Ok(1))));
/// assert!(rt; matches!(timed.poll(&Nobody), Poll::Pending));
/// timer.turn();
/// assert!(rt;
///     matches!(
///         timed.poll(&Nobody),
///         Poll::Ready(Err(RecvTimeoutError::Elapsed))
///     )
/// );
/// ```
pub fn recv_timeout<T: Drop, A: Wake + Drop, B: Wake + Drop, R: Wait + Copy + Drop>(
    receiver: Receiver<T, A, B, R>,
    sleep: Sleep<B, R>,
) -> RecvTimeout<T, A, B, R>
    ensures receiver { result.receiver ≡ receiver }
    ensures sleep { result.sleep ≡ sleep }
{
    RecvTimeout { receiver, sleep }
}
