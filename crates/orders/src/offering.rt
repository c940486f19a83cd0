//! Which calls may come next.

use crate::asking::Asking;
use crate::beside::Beside;
use crate::calls::Call;
use crate::offers::Offers;
use crate::scheduler::{Known, Scheduler};
use async_task::Future;
use std::alloc::AllocError;
use std::fmt::Debug;

impl<T: Debug + Drop, F: Future<Asking, Output = T> + Drop> Scheduler<F, T> {
    /// The calls that may come next.
    pub fn offers<X: Beside>(&self, beside: &X) -> Result<Offers, AllocError> {
        let mut offers = Offers::new(self.alloc);
        for (number, known) in self.known.iter().enumerate() {
            if known.waker.is_asked() && !self.solo.is_finished(known.task) {
                offers.need(Call::Wake(number as u64))?;
            }
        }
        if !self.futures.is_empty() {
            offers.need(Call::Spawn(self.known.len() as u64))?;
        }
        let is_due = self.solo.queue_length() > 0;
        if is_due {
            offers.need(Call::Poll)?;
        }
        if beside.may_step() {
            offers.need(Call::Step)?;
        }
        if is_due && self.extra.refusals > 0 {
            offers.allow(Call::Refuse)?;
        }
        for (number, known) in self.known.iter().enumerate() {
            self.allow(number as u64, known, &mut offers)?;
        }
        Ok(offers)
    }

    /// What may come to one future by itself.
    fn allow(&self, number: u64, known: &Known, offers: &mut Offers) -> Result<(), AllocError> {
        let is_finished = self.solo.is_finished(known.task);
        if self.extra.strays > 0 && known.is_waiting && !is_finished && !known.waker.is_asked() {
            offers.allow(Call::Stray(number))?;
        }
        if self.extra.cancels > 0 && known.has_handle && !is_finished {
            offers.allow(Call::Cancel(number))?;
        }
        if self.extra.leaves > 0 && known.has_handle {
            offers.allow(Call::Leave(number))?;
        }
        Ok(())
    }
}
