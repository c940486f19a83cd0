//! The handles of a script's futures, and what is kept of their wakers.
use async_task::{Future, Wake};
use local_executor::{LocalCancel, LocalExWaker, LocalHandle, LocalWaker};
use player_parts::{
    Answer, Await, Bell, Gift, Hold, KeptOf, Shelf, answer_of_cancel, answer_of_task,
};
use script::Name;
use std::sync::Wait;

/// The waker that a script's futures, handles, ticks and runs are polled with.
pub type ScriptWaker<R> = LocalExWaker<Bell, R>;

/// The handle of a future.
#[derive(Drop)]
pub enum Handle<R: Wait + Copy + Drop> {
    Task(LocalHandle<Gift, Bell, R>),
    /// It has cancelled the future, or does so at its next poll.
    Cancel(LocalCancel<Gift, Bell, R>),
}

impl<R: Wait + Copy + Drop> Await<ScriptWaker<R>> for Handle<R> {
    fn poll(&mut self, waker: &ScriptWaker<R>) -> Answer {
        match self {
            Handle::Task(task) => answer_of_task(task.poll(waker)),
            Handle::Cancel(cancel) => answer_of_cancel(cancel.poll(waker)),
        }
    }
}

impl<R: Wait + Copy + Drop> Hold for Handle<R> {
    fn poll_by(&mut self, bell: Bell) -> Answer {
        let waker: ScriptWaker<R> = LocalExWaker::Outside(bell);
        match self {
            Handle::Task(task) => answer_of_task(task.poll(&waker)),
            Handle::Cancel(cancel) => answer_of_cancel(cancel.poll(&waker)),
        }
    }

    fn cancel(self) -> Self {
        match self {
            Handle::Task(task) => Handle::Cancel(task.cancel()),
            Handle::Cancel(cancel) => Handle::Cancel(cancel),
        }
    }

    fn detach(self) {
        match self {
            Handle::Task(task) => task.detach(),
            Handle::Cancel(cancel) => drop(cancel),
        }
    }
}

/// A waker of a future that is kept.
#[derive(Drop)]
pub struct Kept<R: Wait + Copy + Drop> {
    pub waker: LocalWaker<Bell, R>,
}

impl<R: Wait + Copy + Drop> KeptOf<ScriptWaker<R>> for Kept<R> {
    fn kept_of(waker: &ScriptWaker<R>) -> Option<Kept<R>> {
        match waker.clone() {
            Some(LocalExWaker::Task(waker)) => Some(Kept { waker }),
            _ => None,
        }
    }

    fn keep_none(shelf: &Shelf<Kept<R>>, name: Name) {
        drop(shelf.take_kept(name));
    }
}
