ghost use Rattle.async_task.specs.declared.poll.Poll.TheVariants as poll;
ghost use Rattle.std.specs.Prelude.{◌≡◌, Err, IsSome};
ghost use Rattle.waiting.specs.declared.semaphore.acquire.Stage.TheVariants as stage;
ghost use Rattle.waiting.specs.declared.semaphore.errors.AcquireError.TheVariants as error;
ghost use Rattle.waiting.specs.Acquiring.{HasPolled};

use crate::permits::{Found, NoMore};
use crate::semaphore::{AcquireError, Permit, Semaphore};
use crate::waiters::Listening;
use async_task::{Future, Poll, Wake};
use std::mem;
use std::sync::Wait;

/// Takes a permit: a future that is ready once it has one, or the semaphore is closed. Each poll leaves its waker in the place of
/// the one before. Where no copy of the waker can be had it calls the waker, so that it is polled again. Once it gave a permit it
/// is pending, and calls no waker.
///
/// Dropped before, it takes no permit, and waits no more: a permit that was promised to it goes to the next waiter.
pub struct Acquire<K: Wake + Drop, R: Wait + Copy + Drop> {
    stage: Stage<K, R>,
    // Set once it has answered that the semaphore is closed.
    no_more: Option<NoMore>,
}

/// How far the future is.
pub enum Stage<K: Wake + Drop, R: Wait + Copy + Drop> {
    /// It doesn't wait yet.
    Comes(Semaphore<K, R>),
    Waits(Semaphore<K, R>, Listening),
    /// It gave a permit.
    Given,
}

impl<K: Wake + Drop, R: Wait + Copy + Drop> Acquire<K, R> {
    pub(crate) fn new(semaphore: Semaphore<K, R>) -> Self
        ensures { result.stage ≡ stage.Comes semaphore }
    {
        Acquire {
            stage: Stage::Comes(semaphore),
            no_more: None,
        }
    }

    /// Sets the stage.
    fn goes_to(&mut self, stage: Stage<K, R>)
        ensures { self.new ≡ record self.old { stage = stage } }
    {
        end(mem::replace(&mut self.stage, stage));
    }
}

/// Waits no more, if it waited.
fn end<K: Wake + Drop, R: Wait + Copy + Drop>(stage: Stage<K, R>) {
    match stage {
        Stage::Waits(semaphore, listening) => semaphore.give_up(listening),
        Stage::Comes(_) | Stage::Given => {}
    }
}

impl<K: Wake + Drop, R: Wait + Copy + Drop> Future<K> for Acquire<K, R> {
    type Output = Result<Permit<K, R>, AcquireError>;

    /// 1. Takes a copy of the waker.
    /// 2. Looks for a permit, and else leaves the copy, under the lock.
    /// 3. Drops the waker that it had left before, with no lock held.
    fn poll(&mut self, waker: &K) -> Poll<Result<Permit<K, R>, AcquireError>>
        ensures polled { HasPolled self.old.stage self.new.stage result }
        ensures over { result ≡ poll.Ready (Err error.Closed) → IsSome self.new.no_more }
    {
        let (semaphore, waiting) = match mem::replace(&mut self.stage, Stage::Given) {
            Stage::Comes(semaphore) => (semaphore, None),
            Stage::Waits(semaphore, listening) => (semaphore, Some(listening)),
            Stage::Given => return Poll::Pending,
        };
        let copy = waker.clone();
        let is_left = copy.is_some();
        match semaphore.find(waiting, copy) {
            Found::Taken(held, _copy) => Poll::Ready(Ok(Permit::new(semaphore, held))),
            Found::Closed(no_more, _copy) => {
                self.no_more = Some(no_more);
                self.goes_to(Stage::Comes(semaphore));
                Poll::Ready(Err(AcquireError::Closed))
            }
            Found::NoMemory(_copy) => {
                self.goes_to(Stage::Comes(semaphore));
                Poll::Ready(Err(AcquireError::NoMemory))
            }
            Found::Waits(listening, _before) => {
                self.goes_to(Stage::Waits(semaphore, listening));
                if !is_left {
                    waker.wake_by_ref();
                }
                Poll::Pending
            }
        }
    }
}

impl<K: Wake + Drop, R: Wait + Copy + Drop> Drop for Acquire<K, R> {
    fn drop(self) {
        let Acquire {
            stage,
            no_more: _no_more,
        } = self;
        end(stage);
    }
}
