ghost use Rattle.std.specs.Arc.{arc_value};
ghost use Rattle.std.specs.Prelude.{◌≡◌, IfErr, IfOk, IsSomeAnd, None};
ghost use Rattle.kit_futures.specs.Awaits.{IsAwaited, IsLeft};

use crate::bridge::Bridge;
use crate::errors::{AwaitError, EnterError};
use crate::parts::{Refused, Taken, Waited};
use crate::place::Place;
use crate::pollable::{Pollable, Polled};
use async_task::{Future, Poll, Wake};
use std::sync::Wait;

/// A future of the library's as one of `async_task`, polled where this is polled. Dropped while it waits, it leaves the bridge.
///
/// In `threads` of `kit_tests` the receiver of a channel of the library's is awaited at a bridge:
///
/// ```
/// let (sender, receiver) = oneshot::channel(alloc)?;
/// let Ok(awaited) = Compat::new(bridge, receiver) else {
///     return Err(io::ErrorKind::OutOfMemory.into());
/// };
/// ```
///
/// A thread blocks on it, and has its number:
///
/// ```
/// match block_on::<ThreadWaker, _, _>(&rt, alloc, awaited) {
///     Ok(Ok(Ok(number))) => number,
///     _ => 0,
/// }
/// ```
#[derive(Drop)]
pub struct Compat<F: futures::Future, K: Wake + Drop, R: Wait + Copy + Drop> {
    awaited: Option<Awaited<F, K, R>>,
}

/// The seat goes before the future, so that nobody is called for the wakers that the future drops.
#[derive(Drop)]
struct Awaited<F: futures::Future, K: Wake + Drop, R: Wait + Copy + Drop> {
    place: Place<K, R>,
    future: Pollable<F>,
}

impl<F: futures::Future, K: Wake + Drop, R: Wait + Copy + Drop> Compat<F, K, R> {
    ghost use Rattle.kit_futures.specs.Errors.{refused};

    /// Awaits the future at this bridge. It takes memory for its seat. One that is refused comes back.
    pub fn new(bridge: &Bridge<K, R>, future: F) -> Result<Self, EnterError<F>>
        requires { F.can_poll future }
        ensures future { IfOk result (λ compat. IsSomeAnd compat.awaited (λ awaited. awaited.future.future ≡ future)) }
        ensures here { IfOk result (λ compat. IsSomeAnd compat.awaited (λ a. arc_value a.place.table ≡ arc_value bridge.now.table)) }
        ensures back { IfErr result (λ error. refused error ≡ future) }
    {
        match bridge.enter() {
            Ok(place) => Ok(Compat {
                awaited: Some(Awaited {
                    place,
                    future: Pollable::new(future),
                }),
            }),
            Err(Refused::NoMemory) => Err(EnterError::NoMemory(future)),
            Err(Refused::Closed) => Err(EnterError::Closed(future)),
        }
    }

    /// Leaves the waker, unless the future was woken meanwhile or no copy can be had: then it is called.
    fn wait(&mut self, awaited: Awaited<F, K, R>, waker: &K) -> Poll<Result<F::Output, AwaitError>>
        requires { self.old.awaited ≡ None }
        ensures { IsLeft awaited self.new.awaited result }
    {
        let Some(copy) = waker.clone() else {
            self.awaited = Some(awaited);
            waker.wake_by_ref();
            return Poll::Pending;
        };
        match awaited.place.wait(copy) {
            Waited::Left(_before) => {
                self.awaited = Some(awaited);
                Poll::Pending
            }
            Waited::Woken(owed) => {
                self.awaited = Some(awaited);
                owed.call();
                Poll::Pending
            }
            Waited::Closed(closed, _copy) => Poll::Ready(Err(AwaitError::Closed(closed))),
        }
    }
}

impl<F: futures::Future, K: Wake + Drop, R: Wait + Copy + Drop> Future<K> for Compat<F, K, R> {
    type Output = Result<F::Output, AwaitError>;

    /// 1. Takes the future's turn, where it was woken, and polls it.
    /// 2. Where it gave its output: leaves the seat, and then ends its task.
    /// 3. Where it has to wait: leaves a copy of the waker.
    fn poll(&mut self, waker: &K) -> Poll<Result<F::Output, AwaitError>>
        ensures { IsAwaited (λ awaited output. F.gives awaited.future.future output) self.old.awaited self.new.awaited result }
    {
        let Some(Awaited { place, future }) = self.awaited.take() else {
            return Poll::Ready(Err(AwaitError::Finished));
        };
        match place.take() {
            Taken::Turn(turn) => match future.poll(place.ticket(), turn) {
                Polled::Ready(output, ended) => {
                    ended.end(place.leave());
                    Poll::Ready(Ok(output))
                }
                Polled::Pending(future, _parked) => self.wait(Awaited { place, future }, waker),
            },
            Taken::Waits => self.wait(Awaited { place, future }, waker),
            Taken::Closed(closed) => Poll::Ready(Err(AwaitError::Closed(closed))),
        }
    }
}
