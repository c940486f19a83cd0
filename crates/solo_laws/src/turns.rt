//! Calls of an executor of one owner take the steps that `begins` and `next` of `call_steps` say: what a call leaves, hands out and
//! leaves to its owner is what these do one after the other, each followed by what `next` says for what it saw.
ghost use Rattle.solo.specs.declared.solo.Solo.{Solo};
ghost use Rattle.solo_laws.specs.CallsGo.{WakesGo, UsesGo, ReleasesGo, CancelsGo, DetachesGo, LooksGo, SpawnsGo, RefusalsGo, TakesGo};
ghost use Rattle.solo_laws.specs.EndsGo.{LeaksGo, LeakNextsGo, ClosesGo, DrainsGo};
ghost use Rattle.solo_laws.specs.RunsGo.{RunsBegin, RunsRegister, RunLeavesGo, RunDrainsGo};
ghost use Rattle.solo_laws.specs.PollsGo.{ReadySettlesGo, PendingSettlesGo, FinishesGo, RetractsGo};
ghost use Rattle.solo_laws.specs.SearchesGo.{RunTakesGo, RunSearchesGo};
ghost use Rattle.solo_laws.specs.TicksGo.{TicksBegin, TickTakesGo, TickSearchesGo, TickSleepsGo, TickLeavesGo};

/// A wake, a wake by a waker that goes, and the drop of a waker: the task is queued where it has to be, and then a sleeper told, whose
/// task is woken in its turn.
pub fn wakes_go_by_next<F, T, X>()
    ensures wakes { (s : Solo F T X) → WakesGo s }
    ensures uses { (s : Solo F T X) → UsesGo s }
    ensures releases { (s : Solo F T X) → ReleasesGo s }
{}

/// A cancel and a detach: the task is queued and a sleeper told; an output and who awaits are handed out.
pub fn handles_go_by_next<F, T, X>()
    ensures cancels { (s : Solo F T X) → CancelsGo s }
    ensures detaches { (s : Solo F T X) → DetachesGo s }
{}

/// A spawn, a refused one, `is_empty` and a take: a sleeper is told before the turn of the task begins that was taken.
pub fn takes_go_by_next<F, T, X>()
    ensures looks { (s : Solo F T X) → LooksGo s }
    ensures spawns { (s : Solo F T X) → SpawnsGo s }
    ensures refusals { (s : Solo F T X) → RefusalsGo s }
    ensures takes { (s : Solo F T X) → TakesGo s }
{}

/// A tick: its making, its look with a copy of its waker and without one, its sleep behind the latter, which is a run's too, and its
/// leave. One with a waker that finds nothing has room to fall asleep in, or sleeps.
pub fn ticks_go_by_next<F, T, X>()
    ensures begin { (s : Solo F T X) → TicksBegin s }
    ensures takes { (s : Solo F T X) → TickTakesGo s }
    ensures searches { (s : Solo F T X) → TickSearchesGo s }
    ensures sleeps { (s : Solo F T X) → TickSleepsGo s }
    ensures leave { (s : Solo F T X) → TickLeavesGo s }
{}

/// The end of a poll, with an output or without, of the drop of a future, and of the turn of a task that is taken back. The entry of a
/// future that was dropped counts a waker of its own task, or none.
pub fn polls_end_by_next<F, T, X>()
    ensures ready { (s : Solo F T X) → ReadySettlesGo s }
    ensures pending { (s : Solo F T X) → PendingSettlesGo s }
    ensures finish { (s : Solo F T X) → FinishesGo s }
    ensures retract { (s : Solo F T X) → RetractsGo s }
{}

/// A leak, each waker that it calls, a close, and each thing that `drain` does.
pub fn ends_go_by_next<F, T, X>()
    ensures leaks { (s : Solo F T X) → LeaksGo s }
    ensures leak_nexts { (s : Solo F T X) → LeakNextsGo s }
    ensures closes { (s : Solo F T X) → ClosesGo s }
    ensures drains { (s : Solo F T X) → DrainsGo s }
{}

/// A run: its making, its first poll, its leave, and each task that it leaves.
pub fn runs_go_by_next<F, T, X>()
    ensures begin { (s : Solo F T X) → RunsBegin s }
    ensures register { (s : Solo F T X) → RunsRegister s }
    ensures leave { (s : Solo F T X) → RunLeavesGo s }
    ensures drain { (s : Solo F T X) → RunDrainsGo s }
{}

/// The search of a run, with a copy of its waker and without one: its own queue, the executor's, a steal, the walk, and what it does
/// with what it has found. It has counted fewer than 64 since its last steal for their number, and taken fewer than 200 since it last
/// let others go first; where it finds nothing it has room to fall asleep in, or sleeps.
pub fn runs_search_by_next<F, T, X>()
    ensures takes { (s : Solo F T X) → RunTakesGo s }
    ensures searches { (s : Solo F T X) → RunSearchesGo s }
{}
