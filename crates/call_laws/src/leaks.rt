//! What a leak has done.
ghost use Rattle.executor_model.specs.Executions.{EveryMachine};
ghost use Rattle.call_laws.specs.Leaked.{LeakedIsStatic};

/// Whatever the parties do, once a leak of the executor has ended, the executor is static.
pub fn leaked_executors_are_static()
    ensures { EveryMachine LeakedIsStatic }
{}
