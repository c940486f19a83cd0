//! How a task is run: its future is polled, or dropped where the task is closed. Each look at the store, and each at the state
//! under the lock, is a section of its own.
use crate::body::Body;
use crate::entry::{LocalExWaker, Unlocked};
use crate::foreign::{Foreign, let_go};
use crate::futures::{Left, TakenOut};
use crate::handle::drops_output;
use crate::lent::LentWaker;
use crate::{futures, sections};
use async_task::{Future, Poll, Wake};
use executor_parts::EntryPlace;
use solo::{Back, Found, Lent, Taken};
use std::sync::Wait;

impl<F, T: Drop, W: Wake + Drop, R: Wait + Copy + Drop> Body<F, T, W, R>
where
    F: Future<LocalExWaker<W, R>, Output = T> + Drop,
{
    /// Runs one task, where one is queued, and answers whether it did.
    ///
    /// 1. Takes a task from the queue. Where there is none: false.
    /// 2. Calls the waker of the sleeper that has to be notified of the others.
    /// 3. Runs it: true.
    #[inline(always)]
    pub(crate) fn run_one(&self, unlocked: &mut Unlocked) -> bool {
        let Taken { found, sleeper } = sections::take(self.link.lock(unlocked).get());
        if let Some(sleeper) = sleeper {
            sleeper.wake(unlocked);
        }
        self.run_found(found, unlocked)
    }

    /// Runs what was found, and answers whether that was a task.
    #[inline(always)]
    pub(crate) fn run_found(&self, found: Found<EntryPlace>, unlocked: &mut Unlocked) -> bool {
        match found {
            Found::Nothing => false,
            Found::Gone => true,
            Found::Poll(lent, place) => {
                self.poll(lent, place, unlocked);
                true
            }
            Found::Drop(lent, place) => {
                self.drop_future(lent, place, unlocked);
                true
            }
        }
    }

    #[inline(always)]
    fn poll(&self, lent: Lent, place: EntryPlace, unlocked: &mut Unlocked) {
        let taken = futures::take(self.store.open(&self.link.rt(), unlocked).get(), place);
        match taken {
            Some(taken) => self.poll_taken(lent, place, taken, unlocked),
            None => self.settle_pending(lent, place, unlocked),
        }
    }

    /// Polls a future that was taken out of this place, and puts it back, or drops it where it is ready.
    #[inline(always)]
    fn poll_taken(
        &self,
        lent: Lent,
        place: EntryPlace,
        taken: TakenOut<F>,
        unlocked: &mut Unlocked,
    ) {
        let mut taken = taken;
        let waker = LentWaker::of(self.link.share(), lent.task());
        let polled = taken.poll(waker.waker(), unlocked);
        waker.end(unlocked);
        match polled {
            Poll::Ready(output) => {
                taken.let_go(unlocked);
                self.settle_ready(lent, place, Foreign::of(output), unlocked);
            }
            Poll::Pending => {
                let over = futures::put_back(
                    self.store.open(&self.link.rt(), unlocked).get(),
                    taken,
                );
                let_go(over, unlocked);
                self.settle_pending(lent, place, unlocked);
            }
        }
    }
}

impl<F: Drop, T: Drop, W: Wake + Drop, R: Wait + Copy + Drop> Body<F, T, W, R> {
    /// The poll of a future has given this output, and it is dropped: the output goes to its place, and is dropped where nobody
    /// is left to take it.
    #[inline(never)]
    fn settle_ready(
        &self,
        lent: Lent,
        place: EntryPlace,
        output: Foreign<T>,
        unlocked: &mut Unlocked,
    ) {
        let left = futures::leave(self.store.open(&self.link.rt(), unlocked).get(), place);
        let given = match left {
            Some(
                Left {
                    future,
                    output: given,
                },
            ) => {
                let_go(future, unlocked);
                let_go(given.put(output), unlocked);
                Some(given)
            }
            None => {
                output.let_go(unlocked);
                None
            }
        };
        let owed = sections::settle(self.link.lock(unlocked).get(), lent, Back::Ready(()));
        if drops_output(&owed) {
            if let Some(given) = &given {
                let_go(given.take(), unlocked);
            }
        }
        self.link.pay_all(owed, unlocked);
    }

    /// The poll of a future has given no output: it stays, or is dropped where its task is closed.
    #[inline(always)]
    fn settle_pending(&self, lent: Lent, place: EntryPlace, unlocked: &mut Unlocked) {
        let owed = sections::settle(self.link.lock(unlocked).get(), lent, Back::Pending(place));
        if let Some(lent) = self.link.pay(owed, unlocked) {
            self.drop_future(lent, place, unlocked);
        }
    }

    /// Drops the future at this place, and ends its task.
    #[inline(never)]
    fn drop_future(&self, lent: Lent, place: EntryPlace, unlocked: &mut Unlocked) {
        let taken = futures::take(self.store.open(&self.link.rt(), unlocked).get(), place);
        if let Some(taken) = taken {
            taken.let_go(unlocked);
        }
        let left = futures::leave(self.store.open(&self.link.rt(), unlocked).get(), place);
        if let Some(Left { future, output }) = left {
            let_go(future, unlocked);
            let_go(output.take(), unlocked);
        }
        let owed = sections::finish(self.link.lock(unlocked).get(), lent);
        self.link.pay_all(owed, unlocked);
    }
}
