//! All laws of this crate in one.
ghost use Rattle.executor_model.specs.Executions.{EveryMachine};
ghost use Rattle.call_laws.specs.CallLaws.{CallLaws};

/// Whatever the parties do, all laws of this crate hold of the machine to which it leads. So who has a machine that steps of a new
/// one lead to has them all.
pub fn calls_keep_all_laws()
    ensures { EveryMachine CallLaws }
{}
