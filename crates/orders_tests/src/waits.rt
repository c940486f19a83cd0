//! The acts that wait.

use crate::acts::{Act, Lock};
use crate::player::{Player, Progress};
use crate::world::WaitingRuntime;
use async_task::{Future, Poll, Wake};
use orders::{Asking, Hands};
use std::time::Duration;
use waiting::channel::RecvError;
use waiting::semaphore::{Permit, Semaphore};

impl<R: WaitingRuntime, N: Hands + Copy + Drop> Player<R, N> {
    /// The lock of this name.
    pub fn lock(&self, lock: Lock) -> &Semaphore<Asking, R> {
        match lock {
            Lock::First => &self.world.first,
            Lock::Second => &self.world.second,
        }
    }

    /// Does an act that may wait.
    pub fn waits(&mut self, act: Act, waker: &Asking) -> Progress {
        match act {
            Act::Yield => {
                waker.wake_by_ref();
                self.once_more()
            }
            Act::Believe => {
                let _ = self.is_told(waker);
                self.once_more()
            }
            Act::Listen => self.listen(),
            Act::Await => progress(self.is_told(waker)),
            Act::Sleep => self.sleep(),
            Act::AwaitOrSleep => progress(self.is_told(waker) || self.has_slept(waker)),
            Act::Take(lock) => self.take(lock, waker),
            Act::Forget(lock) => self.forget(lock),
            Act::Receive => self.receive(waker),
            _ => Progress::On,
        }
    }

    /// Waits at the first poll, and goes on at the second.
    fn once_more(&mut self) -> Progress {
        self.has_yielded = !self.has_yielded;
        progress(!self.has_yielded)
    }

    fn listen(&mut self) -> Progress {
        match self.world.event.listen() {
            Ok(listener) => {
                self.listener = Some(listener);
                Progress::On
            }
            Err(_) => Progress::NoMemory,
        }
    }

    fn is_told(&mut self, waker: &Asking) -> bool {
        match &mut self.listener {
            Some(listener) => listener.poll(waker).is_ready(),
            None => false,
        }
    }

    fn sleep(&mut self) -> Progress {
        match self.world.timer.sleep(Duration::from_millis(1)) {
            Ok(sleep) => {
                self.sleep = Some(sleep);
                Progress::On
            }
            Err(_) => Progress::NoMemory,
        }
    }

    fn has_slept(&mut self, waker: &Asking) -> bool {
        match &mut self.sleep {
            Some(sleep) => sleep.poll(waker).is_ready(),
            None => false,
        }
    }

    fn take(&mut self, lock: Lock, waker: &Asking) -> Progress {
        if self.acquire.is_none() {
            match self.lock(lock).acquire() {
                Ok(acquire) => self.acquire = Some(acquire),
                Err(_) => return Progress::NoMemory,
            }
        }
        let Some(acquire) = &mut self.acquire else {
            return Progress::NoMemory;
        };
        match acquire.poll(waker) {
            Poll::Pending => Progress::Waits,
            Poll::Ready(Ok(permit)) => {
                self.acquire = None;
                self.keep(lock, permit);
                Progress::On
            }
            Poll::Ready(Err(_)) => Progress::NoMemory,
        }
    }

    fn keep(&mut self, lock: Lock, permit: Permit<Asking, R>) {
        match lock {
            Lock::First => self.first = Some(permit),
            Lock::Second => self.second = Some(permit),
        }
    }

    /// Takes the permit of a lock out. If none is free, nothing more is done.
    fn forget(&mut self, lock: Lock) -> Progress {
        match self.lock(lock).try_acquire() {
            Ok(permit) => {
                permit.forget();
                Progress::On
            }
            Err(_) => Progress::Past(usize::MAX),
        }
    }

    fn receive(&mut self, waker: &Asking) -> Progress {
        if self.receiver.is_none() {
            match self.world.receiver.clone() {
                Ok(receiver) => self.receiver = Some(receiver),
                Err(_) => return Progress::NoMemory,
            }
        }
        let Some(receiver) = &mut self.receiver else {
            return Progress::NoMemory;
        };
        match receiver.poll_recv(waker) {
            Poll::Pending => Progress::Waits,
            Poll::Ready(Ok(message)) => {
                let total = self.world.total.get();
                self.world.total.set(total.saturating_add(message));
                Progress::On
            }
            Poll::Ready(Err(RecvError::Closed)) => Progress::On,
            Poll::Ready(Err(RecvError::NoMemory)) => Progress::NoMemory,
        }
    }
}

/// Whether an act is done or waits.
fn progress(is_done: bool) -> Progress {
    if is_done {
        Progress::On
    } else {
        Progress::Waits
    }
}
