//! The futures that a script spawns.
use crate::handle::HoldIn;
use crate::outside::ScriptWaker;
use crate::shelf::Kept;
use async_task::{Future, Poll, Runtime};
use player_parts::{Gift, Held, Scripted};

/// A future of an executor that a script plays on. What spawns them knows no more of them than this.
pub trait Planned<H: Drop, R: Runtime>: Future<ScriptWaker<R>, Output = Gift> + Drop {
    fn planned(future: Scripted<H, Kept>) -> Self;

    /// The handles that it holds, where it was refused: its drop isn't shown.
    fn held_back(self) -> Vec<Held<H>>;
}

/// A scripted future, whose handles are `H`.
#[derive(Drop)]
pub struct ScriptFuture<H: Drop> {
    scripted: Scripted<H, Kept>,
}

impl<H: HoldIn<R>, R: Runtime> Future<ScriptWaker<R>> for ScriptFuture<H> {
    type Output = Gift;

    fn poll(&mut self, waker: &ScriptWaker<R>) -> Poll<Gift> {
        self.scripted.poll(waker)
    }
}

impl<H: HoldIn<R>, R: Runtime> Planned<H, R> for ScriptFuture<H> {
    fn planned(future: Scripted<H, Kept>) -> Self {
        ScriptFuture { scripted: future }
    }

    fn held_back(self) -> Vec<Held<H>> {
        let ScriptFuture { scripted } = self;
        scripted.into_held()
    }
}
