//! Polls and drops: what `Solo` hands out is done here.
ghost use Rattle.std.specs.Prelude.{◌≡◌};

use crate::asking::Asking;
use crate::calls::Came;
use crate::scheduler::{Scheduler, Seated};
use async_task::{Future, Nobody, Poll};
use solo::{Back, Found, Lent, Owed, Taken, Told};
use std::fmt::Debug;
use std::io;

impl<T: Debug + Drop, F: Future<Asking, Output = T> + Drop> Scheduler<F, T> {
    /// Polls or drops the first of the queue; without memory for copies of its waker, if these are refused.
    pub fn run_next(&mut self, is_refused: bool) -> io::Result<Option<Came>> {
        let Taken { found, sleeper: _ } = self.solo.take();
        match found {
            Found::Nothing | Found::Gone => Ok(None),
            Found::Drop(lent, seated) => {
                let number = lent.task().number();
                drop(seated);
                let owed = self.solo.finish(lent);
                self.pay(owed);
                Ok(Some(Came::Dropped(number)))
            }
            Found::Poll(lent, seated) => self.poll(lent, seated, is_refused),
        }
    }

    fn poll(
        &mut self,
        lent: Lent,
        mut seated: Seated<F>,
        is_refused: bool,
    ) -> io::Result<Option<Came>> {
        let number = lent.task().number();
        seated.waker.refuse(is_refused);
        let polled = seated.future.poll(&seated.waker);
        seated.waker.refuse(false);
        match polled {
            Poll::Pending => {
                let owed = self.solo.settle(lent, Back::Pending(seated));
                self.pay(owed);
                self.waits(number, true);
                Ok(Some(Came::Pending(number)))
            }
            Poll::Ready(output) => {
                drop(seated);
                let text = format!(in self.alloc; "{output:?}");
                let owed = self.solo.settle(lent, Back::Ready(output));
                self.pay(owed);
                self.waits(number, false);
                self.order.note_output(number, text?)?;
                Ok(Some(Came::Ready(number)))
            }
        }
    }

    fn waits(&mut self, number: u64, is_waiting: bool) {
        if let Some(known) = self.known.get_mut(number as usize) {
            known.is_waiting = is_waiting;
        }
    }

    /// Does what a call handed out: drops what it gave, and finishes what was dropped. Nobody sleeps here, and no handle is polled.
    pub fn pay(&mut self, owed: Owed<Seated<F>, T, Nobody>) {
        if let Some(lent) = rest_of(owed) {
            match rest_of(self.solo.finish(lent)) {
                None => {}
                Some(_) => unreachable!(),
            }
        }
    }
}

/// Nobody sleeps here, and no queue is closed.
pub fn nobody(told: Told<Nobody>) {
    let Told {
        sleeper: _,
        returned: _,
    } = told;
}

/// What is to be finished, with the rest dropped.
fn rest_of<F: Drop, T: Drop>(owed: Owed<F, T, Nobody>) -> Option<Lent>
    ensures { result ≡ owed.rest }
{
    let Owed {
        future: _,
        rest,
        output: _,
        awaiter: _,
        sleeper: _,
        old: _,
        returned: _,
    } = owed;
    rest
}
