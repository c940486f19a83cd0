//! That the drops are entered that are told of.
ghost use Rattle.std.specs.Prelude.{ℕ, List};
ghost use Rattle.executor_model.specs.declared.kind.Kind.{Kind};
ghost use Rattle.executor_model.specs.declared.step.Step.{Step};
ghost use Rattle.executor_model.specs.Executions.{EveryMachine};
ghost use Rattle.executor_model.specs.EveryTrace.{EveryTrace};
ghost use Rattle.call_laws.specs.DropsEntered.{DropsAreEntered};
ghost use Rattle.call_laws.specs.DropsTold.{DropsAreTold};
ghost use Rattle.call_laws.specs.DroppedGone.{DroppedIsGone};
ghost use Rattle.call_laws.specs.OutputsEntered.{OutputDropsAreEntered};
ghost use Rattle.call_laws.specs.OwnDrops.{OwnDropsAreEntered, OwnIsDroppedOnce};

/// Whatever the parties do, a step that tells that the drop of a future begins leads its party into the user code of that drop,
/// before anything else.
pub fn drops_of_futures_are_entered()
    ensures { EveryMachine DropsAreEntered }
{}

/// Whatever the parties do, a step that tells that the drop of an output begins leads its party into the user code of that drop,
/// before anything else.
pub fn drops_of_outputs_are_entered()
    ensures { EveryMachine OutputDropsAreEntered }
{}

/// Whatever the parties do, where a run's own future answers that it is ready, the drop of that is the next thing that its party
/// does. So it is where a run is dropped that hasn't ended.
pub fn drops_of_own_futures_are_entered()
    ensures { EveryMachine OwnDropsAreEntered }
{}

/// Whatever the parties do, a run's own future is dropped at most once, and exactly once where the run has ended, as that was ready,
/// or was dropped: its user code has ended, or is in progress.
pub fn own_futures_are_dropped_once()
    ensures { (limit : ℕ) (kind : Kind) (parties : ℕ) (steps : List Step) (r : ℕ) → OwnIsDroppedOnce limit kind parties steps r }
{}

/// Whatever the parties do, each call that has ended and drops a tick or a run has told itself that this one is dropped.
pub fn drops_of_ticks_and_runs_are_told()
    ensures { EveryTrace DropsAreTold }
{}

/// Whatever the parties do, a tick that is told of as dropped has left once no call in progress names it. A run doesn't live since
/// that was told; and once no call names it, it doesn't sleep, and nothing stands in its own queue.
pub fn dropped_ticks_and_runs_are_gone()
    ensures { EveryMachine DroppedIsGone }
{}
