//! What a script is played on.
use crate::answer::Answer;
use crate::handle::Held;
use crate::handles::SharedHandles;
use crate::outside::Bell;
use crate::own::Own;
use executor_parts::Mark;
use script::{Item, Name};

/// What a future is made of.
#[derive(Drop)]
pub struct Plan<H: Drop> {
    /// What its script calls it.
    pub name: Name,
    /// The mark that it is spawned with.
    pub mark: Mark,
    /// What it does at its polls.
    pub items: Vec<Item>,
    /// The handles that its items name.
    pub held: Vec<Held<H>>,
    /// The handles that it may drop.
    pub handles: SharedHandles<H>,
}

/// A future wasn't accepted: why, and the handles that it was to hold.
#[derive(Drop)]
pub struct Refused<H: Drop> {
    /// `Full` or `NoMemory`.
    pub answer: Answer,
    /// Those that its items name, as they were handed in.
    pub held: Vec<Held<H>>,
}

/// An executor as a player sees it, whose handles are `H`, its ticks `T` and its runs `N`. What it has no words for, that a command
/// isn't possible, the player finds itself.
pub trait Desk<H: Drop, T: Drop, N: Drop> {
    /// Spawns a future, and gives its handle.
    fn spawn(&self, plan: Plan<H>) -> Result<H, Refused<H>>;

    /// Says whether a future was there to be run.
    fn try_tick(&self) -> bool;

    /// Whether each accepted future is dropped.
    fn is_empty(&self) -> bool;

    /// Whether it can be dropped or leaked.
    fn may_end(&self) -> bool;

    /// A new tick, where there is memory for it.
    fn tick(&self) -> Option<T>;

    /// A new run. For want of memory its own future comes back.
    fn run(&self, own: Own<H>) -> Result<N, Own<H>>;

    /// Polls a tick by an outside waker.
    fn poll_tick(&self, tick: &mut T, bell: Bell) -> Answer;

    /// Polls a run by an outside waker.
    fn poll_run(&self, run: &mut N, bell: Bell) -> Answer;
}
