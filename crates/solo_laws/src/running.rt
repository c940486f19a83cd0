//! Runs are those of the plain scheduler: what they steal, and so keep; and how they go.
ghost use Rattle.std.specs.Prelude.{ℕ};
ghost use Rattle.solo.specs.declared.names.SoloWaker.{SoloWaker};
ghost use Rattle.solo.specs.declared.owed.Lent.{Lent};
ghost use Rattle.solo.specs.declared.solo.Solo.{Solo};
ghost use Rattle.plain_scheduler.specs.State.{Choice, Plain, Who};
ghost use Rattle.solo_laws.specs.Led.{IsLed};
ghost use Rattle.solo_laws.specs.Numbered.{IsNumbered};
ghost use Rattle.solo_laws.specs.Owner.{Owner};
ghost use Rattle.solo_laws.specs.Running.{OversAreDropped, OversArePolled, OwnsAreReady, RunsAreDropped, RunsArePolled, RunsLeave};
ghost use Rattle.solo_laws.specs.RunCounting.{EachCounted, RunsCount, RunsCountAnew};
ghost use Rattle.solo_laws.specs.RunResting.{EachListed, RunsAreRefused, RunsLieRefused, RunsRest};
ghost use Rattle.solo_laws.specs.RunTaking.{RunsGiveWay, RunsTakeCommon, RunsTakeOwn};
ghost use Rattle.solo_laws.specs.Stealing.{KeepsAlike, KeepsOfBoth, RobsAlike};
ghost use Rattle.solo_laws.specs.Tabled.{Stands};
ghost use Rattle.solo_laws.specs.Walking.{RunsTakeKept};

/// Where both stand alike, they do so once a run that goes on has stolen from one of the executor's queues, or from both: the plain
/// scheduler's run keeps as many of the next ones without a keeper, and none that another keeps.
pub fn runs_keep_alike<F, T, X>()
    ensures one { (its : ℕ → Lent) (s : Solo F T X) (p : Plain T (SoloWaker X)) → Stands its s p → KeepsAlike its s p }
    ensures both { (its : ℕ → Lent) (s : Solo F T X) (p : Plain T (SoloWaker X)) → Stands its s p → KeepsOfBoth its s p }
{}

/// So they do once it has stolen from the own queue of another run: the plain scheduler's takes as many of what that run keeps, from
/// the first on.
pub fn runs_rob_alike<F, T, X>()
    ensures { (its : ℕ → Lent) (s : Solo F T X) (p : Plain T (SoloWaker X)) → Stands its s p → RobsAlike its s p }
{}

/// Where both stand alike, and who lies has a number of its own, they do so once a run is polled, as its own future is to be polled
/// first: others look at its own queue from now on. One whose own future is over is finished.
pub fn runs_are_polled_alike<F, T, X>()
    ensures going { (its : ℕ → Lent) (number : Who → ℕ) (s : Solo F T X) (p : Plain T (SoloWaker X)) → Stands its s p
        → IsNumbered number s.sleepers p.lying → RunsArePolled its number s p }
    ensures over { (its : ℕ → Lent) (number : Who → ℕ) (s : Solo F T X) (p : Plain T (SoloWaker X)) → Stands its s p
        → IsNumbered number s.sleepers p.lying → OversArePolled its number s p }
    ensures ready { (its : ℕ → Lent) (number : Who → ℕ) (s : Solo F T X) (p : Plain T (SoloWaker X)) → Stands its s p
        → IsNumbered number s.sleepers p.lying → OwnsAreReady its number s p }
{}

/// So once one is dropped: where its own future isn't over that is to be dropped first.
pub fn runs_are_dropped_alike<F, T, X>()
    ensures going { (its : ℕ → Lent) (number : Who → ℕ) (s : Solo F T X) (p : Plain T (SoloWaker X)) → Stands its s p
        → IsNumbered number s.sleepers p.lying → RunsAreDropped its number s p }
    ensures over { (its : ℕ → Lent) (number : Who → ℕ) (s : Solo F T X) (p : Plain T (SoloWaker X)) → Stands its s p
        → IsNumbered number s.sleepers p.lying → OversAreDropped its number s p }
{}

/// Once the drop of its own future has ended the run goes: what it kept comes back, in order, with a sleeper that is told of each;
/// and one that was told of a task passes that on.
pub fn runs_leave_alike<F, T, X>()
    ensures { (its : ℕ → Lent) (number : Who → ℕ) (s : Solo F T X) (p : Plain T (SoloWaker X)) → Stands its s p
        → IsNumbered number s.sleepers p.lying → RunsLeave its number s p }
{}

/// Once a run's own future is pending, and its own queue has a task, the run takes that: it is the first that the plain scheduler's
/// run keeps. The run gets up if it lay, a sleeper is called, at every 64th take it steals from both of the executor's queues, and the
/// future is polled or dropped.
pub fn runs_take_what_they_keep<F, T, X>()
    ensures { (its : ℕ → Lent) (number : Who → ℕ) (s : Solo F T X) (p : Plain T (SoloWaker X)) → Stands its s p
        → IsNumbered number s.sleepers p.lying → RunsTakeOwn its number s p }
{}

/// Where its own queue has none, and one of the executor's has, it takes what a search of these finds, and steals from that queue
/// before it gets up: the plain scheduler's run takes that too, and keeps as many of the next ones.
pub fn runs_take_what_nobody_keeps<F, T, X>()
    ensures { (its : ℕ → Lent) (number : Who → ℕ) (s : Solo F T X) (p : Plain T (SoloWaker X)) → Stands its s p
        → IsNumbered number s.sleepers p.lying → RunsTakeCommon its number s p }
{}

/// Where there is none either, and its walk round the other runs' own queues finds one, it takes that: the plain scheduler's run takes
/// it from that run, and moves as many more of what that one keeps as it has stolen.
pub fn runs_take_what_others_keep<F, T, X>()
    ensures { (its : ℕ → Lent) (number : Who → ℕ) (s : Solo F T X) (p : Plain T (SoloWaker X)) → Stands its s p
        → IsNumbered number s.sleepers p.lying → RunsTakeKept its number s p }
{}

/// Where others look at each own queue in which there is a task, and so wherever a list of calls leads, a run that finds nothing lies
/// down: no future is due, and it falls asleep with a copy of its waker; where it lies anew it looks once more.
pub fn runs_rest_alike<F, T, X>()
    ensures listed { (its : ℕ → Lent) (number : Who → ℕ) (s : Solo F T X) (p : Plain T (SoloWaker X)) → Stands its s p
        → IsNumbered number s.sleepers p.lying → EachListed s.runs → RunsRest its number s p }
    ensures led { (its : ℕ → Lent) (owner : Owner) (s : Solo F T X) (p : Plain T (SoloWaker X)) → IsLed its owner s p
        → RunsRest its owner.number s p }
{}

/// One that is refused a copy of its waker is as it was; where the copy for its second look is refused it lies.
pub fn runs_are_refused_alike<F, T, X>()
    ensures once { (its : ℕ → Lent) (number : Who → ℕ) (s : Solo F T X) (p : Plain T (SoloWaker X)) → Stands its s p
        → IsNumbered number s.sleepers p.lying → EachListed s.runs → RunsAreRefused its number s p }
    ensures later { (its : ℕ → Lent) (number : Who → ℕ) (s : Solo F T X) (p : Plain T (SoloWaker X)) → Stands its s p
        → IsNumbered number s.sleepers p.lying → EachListed s.runs → RunsLieRefused its number s p }
    ensures led { (its : ℕ → Lent) (owner : Owner) (s : Solo F T X) (p : Plain T (SoloWaker X)) → IsLed its owner s p
        → RunsAreRefused its owner.number s p × RunsLieRefused its owner.number s p }
{}

/// Where a run has taken 200 since it last let others go first, it goes on by calling its own waker, and is pending.
pub fn runs_give_way_alike<F, T, X>()
    ensures { (its : ℕ → Lent) (s : Solo F T X) (p : Plain T (SoloWaker X)) → Stands its s p → RunsGiveWay its s p }
{}

/// Where a run has counted as many as the plain scheduler's has taken, it says with its next take that it is to let others go first just
/// where that one then does, and both have counted as many again; once they have, both count anew. So both have counted as many wherever
/// a list of calls leads, in which runs let others go first as their takes have said.
pub fn runs_count_alike<F, T, X>()
    ensures takes { (c : Choice) (p : Plain T (SoloWaker X)) → RunsCount c p }
    ensures anew { (c : Choice) (p : Plain T (SoloWaker X)) → RunsCountAnew c p }
    ensures led { (its : ℕ → Lent) (owner : Owner) (s : Solo F T X) (p : Plain T (SoloWaker X)) → IsLed its owner s p
        → EachCounted owner p }
{}
