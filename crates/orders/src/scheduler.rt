//! Futures of one type on `Solo`, which polls, drops and calls nothing itself: what it hands out is polled and dropped here.
use crate::asking::Asking;
use crate::beside::Beside;
use crate::calls::{Call, Came, Extra};
use crate::chooser::Choose;
use crate::order::Order;
use crate::polling::nobody;
use async_task::{Future, Nobody};
use solo::{Kind, Mark, Solo, Spawned, Task};
use std::alloc::Global;
use std::collections::VecDeque;
use std::fmt::Debug;
use std::io;

/// A future with its waker.
#[derive(Drop)]
pub struct Seated<F> {
    pub future: F,
    pub waker: Asking,
}

/// What is known of a future that was spawned.
#[derive(Drop)]
pub struct Known {
    pub task: Task,
    pub waker: Asking,
    /// It was polled, and waits since.
    pub is_waiting: bool,
    pub has_handle: bool,
}

/// Futures on their way, and those that aren't spawned yet.
#[derive(Drop)]
pub struct Scheduler<F, T> {
    pub alloc: Global,
    pub solo: Solo<Seated<F>, T, Nobody>,
    pub futures: VecDeque<F>,
    pub known: Vec<Known>,
    pub extra: Extra,
    pub order: Order,
    /// It came to an end: then no call may come.
    pub is_over: bool,
}

impl<T: Debug + Drop, F: Future<Asking, Output = T> + Drop> Scheduler<F, T> {
    pub fn new(alloc: Global, futures: VecDeque<F>, extra: Extra) -> io::Result<Self> {
        Ok(Scheduler {
            alloc,
            solo: Solo::new(alloc, futures.len().max(1), Kind::Owned)?,
            futures,
            known: Vec::new(alloc),
            extra,
            order: Order::new(alloc),
            is_over: false,
        })
    }

    /// Makes the calls that are chosen, so many at most.
    pub fn play<X: Beside, H: Choose>(
        &mut self,
        beside: &mut X,
        chooser: &mut H,
        most: usize,
    ) -> io::Result<()> {
        for _ in 0..most {
            let offers = self.offers(beside)?;
            let Some(call) = chooser.choose(&offers)? else {
                self.is_over = true;
                return Ok(());
            };
            let came = self.make(call, beside)?;
            self.order.note(call, came)?;
        }
        self.is_over = self.offers(beside)?.is_empty();
        Ok(())
    }

    fn make<X: Beside>(&mut self, call: Call, beside: &mut X) -> io::Result<Option<Came>> {
        match call {
            Call::Spawn(_) => self.spawn()?,
            Call::Poll => return self.run_next(false),
            Call::Refuse => {
                self.extra.refusals = self.extra.refusals.saturating_sub(1);
                return self.run_next(true);
            }
            Call::Wake(number) => self.wake(number),
            Call::Stray(number) => {
                self.extra.strays = self.extra.strays.saturating_sub(1);
                self.wake(number);
            }
            Call::Cancel(number) => {
                self.extra.cancels = self.extra.cancels.saturating_sub(1);
                self.cancel(number);
            }
            Call::Leave(number) => {
                self.extra.leaves = self.extra.leaves.saturating_sub(1);
                self.leave(number);
            }
            Call::Step => beside.step(),
        }
        Ok(None)
    }

    fn spawn(&mut self) -> io::Result<()> {
        if let Some(future) = self.futures.pop_front() {
            let waker = Asking::new(self.alloc)?;
            let seated = Seated {
                future,
                waker: waker.share()?,
            };
            let Spawned { task, told } = self.solo.spawn(seated, Mark::Plain)?;
            nobody(told);
            self.known.push(Known {
                task,
                waker,
                is_waiting: false,
                has_handle: true,
            })?;
        }
        Ok(())
    }

    fn wake(&mut self, number: u64) {
        if let Some(known) = self.known.get(number as usize) {
            known.waker.grant();
            nobody(self.solo.wake(known.task));
        }
    }

    fn cancel(&mut self, number: u64) {
        if let Some(known) = self.known.get(number as usize) {
            let owed = self.solo.cancel(known.task);
            self.pay(owed);
        }
    }

    fn leave(&mut self, number: u64) {
        self.cancel(number);
        if let Some(known) = self.known.get_mut(number as usize) {
            known.has_handle = false;
            let owed = self.solo.detach(known.task);
            self.pay(owed);
        }
    }
}
