//! What holds of sleepers after every list of steps, whoever takes them and in whatever order.
ghost use Rattle.std.specs.Prelude.{List};
ghost use Rattle.executor_parts.specs.Sleeping.{Step, SleepersAgree};

/// No two sleepers have one number, there are never more wakers than sleepers, and the flag is true only where nobody
/// sleeps, a sleeper is notified, or somebody who won its exchange has still to hand out.
pub fn sleepers_agree<W>()
    ensures { (steps : List (Step W)) → SleepersAgree steps }
{}
