//! The handles of a script's futures.
use crate::answer::Answer;
use crate::outside::Bell;
use script::Name;

/// The handle of a future, as a player sees it. Its drop cancels the future.
pub trait Hold: Drop {
    /// Polls it by an outside waker.
    fn poll_by(&mut self, bell: Bell) -> Answer;

    /// The handle that cancels the future at its next poll, or has done so.
    fn cancel(self) -> Self;

    /// Lets the future run without a handle; one that was cancelled stays so.
    fn detach(self);
}

/// The same, as futures see it that are polled with a `W`.
pub trait Await<W>: Drop {
    /// Polls it by the waker of the future that holds it.
    fn poll(&mut self, waker: &W) -> Answer;
}

/// Twice the output of a handle's future, or 0 where it was cancelled; none where its poll answered neither.
pub fn doubled(answer: Answer) -> Option<u64> {
    match answer {
        Answer::Output(number) => Some(number.saturating_mul(2)),
        Answer::Cancelled => Some(0),
        _ => None,
    }
}

/// The handle of the future of this name, which another future holds.
#[derive(Drop)]
pub struct Held<H: Drop> {
    /// Of the future whose handle it is.
    pub name: Name,
    /// The handle itself.
    pub handle: H,
}
