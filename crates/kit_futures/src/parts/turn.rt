//! The right to poll a future of the library's.
ghost use Rattle.futures.specs.Task.{IsArmed};
ghost use Rattle.std.specs.Prelude.{◌≡◌};

use crate::parts::carried::Carried;
use crate::parts::seats::Left;
use futures::task::Context;

/// The right to poll the future of this number once. It is made where the library's queue says that the future was woken. Dropped,
/// it ends the future's task there.
#[derive(Drop)]
pub struct Turn {
    number: usize,
    carried: Carried,
    ghost own: { number ≡ carried.cx.turn.task },
}

/// Proof that the poll of a future that waits was ended, so that its next wake gives a turn.
#[derive(Drop)]
pub struct Parked {
    // Only this module makes one.
    own: (),
}

/// A future gave its output, and its task is still to be ended. It has no drop: it ends in `end`.
#[must_use]
pub struct Ended {
    number: usize,
    cx: Context<'static>,
}

impl Turn {
    /// The turn of the future that this context is of.
    pub fn new(cx: Context<'static>) -> Self
        ensures { result.carried.cx.turn.task ≡ cx.entry.turn.task }
    {
        let number = cx.task();
        Turn {
            number,
            carried: Carried::of(cx),
        }
    }

    /// The number of the future that may be polled.
    pub fn number(&self) -> usize
        ensures { result ≡ self.now.carried.cx.turn.task }
    {
        self.number
    }

    /// The context that the poll is made with. Its owner ends it.
    pub(crate) fn into_context(self) -> Context<'static> {
        let Turn { number: _, carried } = self;
        carried.into_context()
    }
}

impl Parked {
    /// Ends a poll that was pending.
    pub(crate) fn new(cx: Context<'static>) -> Self
        requires { IsArmed cx }
    {
        cx.park();
        Parked { own: () }
    }
}

impl Ended {
    pub(crate) fn new(number: usize, cx: Context<'static>) -> Self
        ensures { result.number ≡ number }
    {
        Ended { number, cx }
    }

    /// Ends its task. Another task may have its number from now on, so its seat was left before.
    pub fn end(self, left: Left)
        requires { left.number ≡ self.number }
    {
        let Ended { number: _, cx } = self;
        drop(left);
        cx.cancel();
    }
}
