//! The chain that threads share: the chain of `queue_steps` under a lock, of which each call is one section.
ghost use Rattle.std.specs.Prelude.{◌≡◌, None, false};
ghost use Rattle.concurrent_queue.specs.SharedQueue.{MayPush, MayForcePush};

use crate::glimpse::Glimpse;
use queue_steps::{ForcePushError, PopError, PushError, Representation, Unbounded as Chain};
use std::alloc::Global;
use std::sync::{Mutex, MutexGuard, Wait};
use std::thread;

/// How often a lock that another thread has is tried before it is waited for.
const TRIES: u32 = 16;

/// A closable queue without a limit, which threads share by `&`.
#[derive(Drop)]
pub struct Unbounded<T> {
    chain: Mutex<Chain<T>>,
}

impl<T> Unbounded<T> {
    /// Makes an empty chain, which has no block yet.
    pub(crate) fn new(alloc: Global) -> Unbounded<T> {
        Unbounded {
            chain: Mutex::new(Chain::new(alloc)),
        }
    }

    /// Takes the lock. It tries first, which doesn't wait.
    #[inline(always)]
    fn locked<R: Wait>(&self, rt: &R) -> MutexGuard<'_, Chain<T>> {
        match self.chain.try_lock() {
            Some(chain) => chain,
            None => self.locked_late(rt),
        }
    }

    /// The same, where another thread has it: it is tried some times more, since a section is short, and then waited for.
    #[cold]
    #[inline(never)]
    fn locked_late<R: Wait>(&self, rt: &R) -> MutexGuard<'_, Chain<T>> {
        for _ in 0..TRIES {
            thread::yield_now();
            if let Some(chain) = self.chain.try_lock() {
                return chain;
            }
        }
        self.chain.lock(rt)
    }

    // Of what the lock guards a section knows that it has no limit only once it has asked for the capacity.
    #[inline]
    pub(crate) fn push<R: Wait>(&self, rt: &R, value: T) -> Result<(), PushError<T>>
        ensures { MayPush None value result }
    {
        let mut chain = self.locked(rt);
        let _capacity = chain.capacity();
        chain.push(value)?;
        Ok(())
    }

    pub(crate) fn force_push<R: Wait>(
        &self,
        rt: &R,
        value: T,
    ) -> Result<Option<T>, ForcePushError<T>>
        ensures { MayForcePush None value result }
    {
        let mut chain = self.locked(rt);
        let _capacity = chain.capacity();
        chain.force_push(value)
    }

    #[inline]
    pub(crate) fn pop<R: Wait>(&self, rt: &R) -> Result<T, PopError> {
        let item = self.locked(rt).pop()?;
        Ok(item)
    }

    pub(crate) fn close<R: Wait>(&self, rt: &R) -> bool {
        self.locked(rt).close()
    }

    pub(crate) fn len<R: Wait>(&self, rt: &R) -> usize {
        self.locked(rt).len()
    }

    pub(crate) fn is_empty<R: Wait>(&self, rt: &R) -> bool {
        self.locked(rt).is_empty()
    }

    pub(crate) fn is_full<R: Wait>(&self, rt: &R) -> bool
        ensures { result ≡ false }
    {
        let chain = self.locked(rt);
        let _capacity = chain.capacity();
        chain.is_full()
    }

    pub(crate) fn is_closed<R: Wait>(&self, rt: &R) -> bool {
        self.locked(rt).is_closed()
    }

    /// The chain without its lock.
    pub(crate) fn into_inner(self) -> Chain<T> {
        self.chain.into_inner()
    }

    /// Its length and whether it is closed, read in one section of its lock. It waits for nobody, and answers `None`
    /// where the lock wasn't free at any of many tries.
    pub(crate) fn glimpse(&self) -> Option<Glimpse> {
        Glimpse::under(&self.chain)
    }
}
