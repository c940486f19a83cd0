//! How many wakers there are, and that those used up are gone.
ghost use Rattle.executor_model.specs.Executions.{EveryExecution, EveryMachine};
ghost use Rattle.call_laws.specs.LivingWakers.{FewLive};
ghost use Rattle.call_laws.specs.UsedUp.{UsedUpIsGone};

/// Whatever the parties do, at most 2^40 wakers of a future live: kept ones, that of the table, those that awaiters and sleepers have
/// left, and those that are on their way to be stored, called or let go.
pub fn living_wakers_are_few()
    ensures { EveryExecution FewLive }
{}

/// Whatever the parties do, a kept waker that a call uses up is gone as that call begins, and no other comes in its place.
pub fn used_up_wakers_are_gone()
    ensures { EveryMachine UsedUpIsGone }
{}
