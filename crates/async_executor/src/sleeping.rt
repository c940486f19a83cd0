ghost use Rattle.std.specs.Prelude.{◌≡◌, IfSome};
ghost use Rattle.async_executor.specs.Copies.{IsCopyOf};
ghost use Rattle.async_executor.specs.Steps.{name_given, name_of, sleeper};

use crate::entry::Unlocked;
use crate::foreign::Foreign;
use crate::names::ExWaker;
use crate::task_name::TaskName;
use async_task::{Awaiter, Output, OutsideWaker, Returning, Runtime, StoredWaker, Wake};
use call_steps::{Sleeping, TickOrRun, Waker};

mod going;

/// The waker of a tick or run that sleeps.
#[derive(Drop)]
pub enum SleeperWaker<W> {
    /// Of a task of the executor's realm.
    Task(Returning<StoredWaker>),
    /// From outside.
    Outside(W),
}

impl<W> SleeperWaker<W> {
    /// Its name.
    #[inline(always)]
    pub fn name(&self) -> Waker<TaskName>
        ensures { result ≡ name_of self.now }
    {
        match self {
            SleeperWaker::Task(waker) => Waker::Task(TaskName::of_waker(waker)),
            SleeperWaker::Outside(_) => Waker::Outside,
        }
    }

    /// Which party sleeps with the waker.
    #[inline(always)]
    pub fn sleeper(&self) -> Sleeping<TaskName, ()>
        ensures { result ≡ sleeper self.now }
    {
        Sleeping {
            waker: self.name(),
            who: TickOrRun::Tick(()),
        }
    }
}

impl<W: OutsideWaker> SleeperWaker<W> {
    /// A copy of a waker for the list of sleepers, or None where none can be had, as memory was lacking.
    pub fn of<T: Output, R: Runtime>(
        waker: &ExWaker<T, W, R>,
        unlocked: &Unlocked,
    ) -> Option<Foreign<Self>>
        ensures copy { IfSome result (λ copy. IsCopyOf W.is_same copy.value waker.now) }
        ensures name { IfSome result (λ copy. name_of copy.value ≡ name_given waker.now) }
    {
        let _ = unlocked;
        match SleeperWaker::copy_of(waker) {
            Some(copy) => Some(Foreign::of(copy)),
            None => None,
        }
    }

    fn copy_of<T: Output, R: Runtime>(waker: &ExWaker<T, W, R>) -> Option<Self>
        ensures copy { IfSome result (λ copy. IsCopyOf W.is_same copy waker.now) }
        ensures name { IfSome result (λ copy. name_of copy ≡ name_given waker.now) }
    {
        match waker {
            Awaiter::Task(waker) => match waker.clone() {
                Some(copy) => Some(SleeperWaker::Task(Returning::new(copy.store()))),
                None => None,
            },
            Awaiter::Lent(waker) => match waker.to_waker() {
                Some(copy) => Some(SleeperWaker::Task(Returning::new(copy.store()))),
                None => None,
            },
            Awaiter::Outside(waker) => match waker.clone() {
                Some(copy) => Some(SleeperWaker::Outside(copy)),
                None => None,
            },
        }
    }
}
