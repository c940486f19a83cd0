//! Permits that futures share. After `Semaphore` of `tokio` and `async-lock`.
ghost use Rattle.std.specs.Arc.{arc_value};
ghost use Rattle.std.specs.Prelude.{◌≡◌, IfOk, IfSome};
ghost use Rattle.waiting.specs.Acquiring.{semaphore_of};

mod acquire;
mod errors;
mod permit;

use crate::guarded::Guarded;
use crate::permits::{Found, GaveUp, Held, Permits, Refused};
use crate::waiters::Listening;
pub use acquire::Acquire;
use async_task::{NoMemory, Wake};
pub use errors::{AcquireError, TryAcquireError};
pub use permit::Permit;
use std::alloc::Global;
use std::sync::{Arc, Wait};

/// A number of permits that waiters get in the order in which they came. It is one handle of the semaphore; `clone` makes others.
/// A permit that comes back while one waits is promised to the waiter that came first: a try doesn't overtake it. The type of its
/// wakers is `K`.
///
/// Wakers are called and dropped with no lock held. To take a permit, give it back, add, close or forget takes no memory.
///
/// ```
/// let semaphore = Semaphore::<Nobody, _>::new(rt, rt.alloc(), 1)?;
/// let first = semaphore.try_acquire()?;
/// let mut second = semaphore.acquire()?;
/// assert!(rt; matches!(second.poll(&Nobody), Poll::Pending));
/// drop(first);
/// assert!(rt; matches!(semaphore.try_acquire(), Err(TryAcquireError::NoPermits)));
/// assert!(rt; matches!(second.poll(&Nobody), Poll::Ready(Ok(_))));
/// assert!(rt; semaphore.available_permits() == 1);
/// ```
#[derive(Drop)]
pub struct Semaphore<K: Wake + Drop, R: Wait + Copy + Drop> {
    permits: Arc<Guarded<Permits<K>>>,
    rt: R,
}

impl<K: Wake + Drop, R: Wait + Copy + Drop> Semaphore<K, R> {
    /// Makes a semaphore with this many permits. It takes memory.
    pub fn new(rt: R, alloc: Global, permits: u64) -> Result<Self, NoMemory>
        ensures { IfOk result (λ semaphore. semaphore.rt ≡ rt) }
    {
        match Arc::new(alloc, Guarded::new(Permits::new(alloc, permits))) {
            Ok(permits) => Ok(Semaphore { permits, rt }),
            Err(_) => Err(NoMemory),
        }
    }

    /// Makes another handle of the same semaphore; refused where it has too many already. Takes no memory.
    pub fn clone(&self) -> Result<Self, NoMemory>
        ensures same { IfOk result (λ semaphore. arc_value semaphore.permits ≡ arc_value self.now.permits) }
    {
        match Arc::try_clone(&self.permits) {
            Ok(permits) => Ok(Semaphore {
                permits,
                rt: self.rt,
            }),
            Err(_) => Err(NoMemory),
        }
    }

    /// Takes a permit where one is free, and so nobody waits. It takes no memory. It answers `NoMemory` where the semaphore has
    /// too many handles, of which a permit is one.
    pub fn try_acquire(&self) -> Result<Permit<K, R>, TryAcquireError>
        ensures same { IfOk result (λ permit. arc_value permit.semaphore.permits ≡ arc_value self.now.permits) }
    {
        let semaphore = match self.clone() {
            Ok(semaphore) => semaphore,
            Err(NoMemory) => return Err(TryAcquireError::NoMemory),
        };
        let taken = self.permits.lock(&self.rt).take();
        match taken {
            Ok(held) => Ok(Permit::new(semaphore, held)),
            Err(Refused::NoPermits) => Err(TryAcquireError::NoPermits),
            Err(Refused::Closed(_)) => Err(TryAcquireError::Closed),
        }
    }

    /// Makes a future that takes a permit, and waits for one. It joins the waiters at its first poll that finds none free. Refused
    /// where the semaphore has too many handles; it takes no memory.
    pub fn acquire(&self) -> Result<Acquire<K, R>, NoMemory>
        ensures same { IfOk result (λ a. IfSome (semaphore_of a.stage) (λ s. arc_value s.permits ≡ arc_value self.now.permits)) }
    {
        match self.clone() {
            Ok(semaphore) => Ok(Acquire::new(semaphore)),
            Err(error) => Err(error),
        }
    }

    /// Adds this many permits, which go to the waiters first. There are at most 2^64 - 1 at a time: what would go past that isn't
    /// added. It takes no memory.
    pub fn add_permits(&self, permits: u64) {
        let mut left = permits;
        for _ in 0..permits {
            let (promise, rest) = self.permits.lock(&self.rt).add(left);
            promise.tell();
            if rest == 0 {
                return;
            }
            left = rest;
        }
    }

    /// Closes the semaphore and notifies all waiters. No permit is taken any more: waiters answer `Closed`, as do those to whom a
    /// permit was promised. What is held can still be given back. Answers whether it was open. It takes no memory.
    pub fn close(&self) -> bool {
        let closing = self.permits.lock(&self.rt).close();
        closing.tell()
    }

    /// Whether the semaphore is closed. A closed semaphore stays closed.
    pub fn is_closed(&self) -> bool {
        self.permits.lock(&self.rt).is_closed()
    }

    /// How many permits are free. Others may change that at once. While one waits none is free.
    pub fn available_permits(&self) -> u64 {
        self.permits.lock(&self.rt).free()
    }

    /// What one finds who comes now, or waited already.
    pub(crate) fn find(&self, waiting: Option<Listening>, waker: Option<K>) -> Found<K> {
        match waiting {
            None => self.permits.lock(&self.rt).come(waker),
            Some(listening) => self.permits.lock(&self.rt).look(listening, waker),
        }
    }

    /// Waits no more, and notifies the next waiter where a permit was promised.
    pub(crate) fn give_up(&self, listening: Listening) {
        let gave_up = self.permits.lock(&self.rt).give_up(listening);
        match gave_up {
            GaveUp::Untold(_waker) => {}
            GaveUp::Told(promise) => promise.tell(),
        }
    }

    pub(crate) fn give_back(&self, held: Held) {
        let promise = self.permits.lock(&self.rt).give_back(held);
        promise.tell();
    }

    pub(crate) fn forget(&self, held: Held) {
        self.permits.lock(&self.rt).forget(held);
    }
}
