//! A run.
ghost use Rattle.std.specs.Prelude.{◌≡◌};
ghost use Rattle.executor_model.specs.World.{new_run};
ghost use Rattle.executor_core.specs.Runs.{as_run};

use crate::runs::counts::Counts;
use crate::runs::own::OwnQueue;
use crate::ticks::Ticker;

/// How far a run has come.
#[derive(Clone, Copy, Debug, PartialEq, Eq)]
pub enum Stage {
    /// It was never polled.
    New,
    /// Its own queue is in the list.
    Listed,
    /// Its own queue has gone from the list: its own future was ready, or it is being dropped.
    Ended,
}

/// A run. It has no drop: it leaves the sleepers.
pub struct Run {
    pub place: Ticker,
    pub stage: Stage,
    /// Its drop was begun.
    pub dropped: bool,
    pub counts: Counts,
    pub own: OwnQueue,
}

impl Run {
    /// A run that is awake and was never polled, with this queue.
    pub fn new(own: OwnQueue) -> Run
        ensures run { as_run result ≡ new_run }
        ensures own { result.own ≡ own }
    {
        Run {
            place: Ticker::Awake,
            stage: Stage::New,
            dropped: false,
            counts: Counts::new(),
            own,
        }
    }
}
