//! What may be begun.
ghost use Rattle.executor_model.specs.Executions.{EveryMachine};
ghost use Rattle.call_laws.specs.Begins.{CallsBegin};
ghost use Rattle.call_laws.specs.Interleaved.{TwoInterleave};

/// Whatever the parties do, each call can be begun by each party, but for a cause, and the first of these causes is told. The party is
/// in a call, and not in user code. What the call names isn't there, or another call in progress uses it; or it names the waker of
/// a poll, and the party isn't in one. It is a call on the executor, and the executor's drop has begun or a leak is in progress; or a
/// leak or the executor's drop, and the executor is static. Or it is one of these two, and a tick or run lives, or a call on
/// the executor is in progress. So what others do, and what is in user code, keeps no other call out.
pub fn calls_can_be_begun()
    ensures { EveryMachine CallsBegin }
{}

/// Two parties do interleave: while one spawns a future, another makes a tick.
pub fn two_parties_interleave()
    ensures { TwoInterleave }
{}
