//! What an executor of one owner has in common with the plain scheduler.
ghost use Rattle.std.specs.Prelude.{◌≡◌, ℕ, List, Bool, not};
ghost use Rattle.solo.specs.Lines.{LinesValue};
ghost use Rattle.solo.specs.Solo.{IsNew, counts};
ghost use Rattle.solo.specs.declared.names.Kind.{Kind};
ghost use Rattle.solo.specs.declared.names.SoloWaker.{SoloWaker};
ghost use Rattle.solo.specs.declared.names.Task.{Task};
ghost use Rattle.solo.specs.declared.owed.Lent.{Lent};
ghost use Rattle.solo.specs.declared.solo.Solo.{Solo};
ghost use Rattle.plain_scheduler.specs.Calls.{new};
ghost use Rattle.plain_scheduler.specs.State.{Due, Plain};
ghost use Rattle.solo_laws.specs.Alike.{TakesAlike, WakesAlike, ReleasesAlike, UsesAlike, CancelsAlike, CopiesAlike};
ghost use Rattle.solo_laws.specs.Alike.{HandlesAlike, HandleDropsAlike, PendsAlike, GivesAlike, DetachesAlike};
ghost use Rattle.solo_laws.specs.Dropping.{GivenDropsAlike, ClosedDropsAlike, LosesAlike};
ghost use Rattle.solo_laws.specs.Leaking.{LeaksAlike};
ghost use Rattle.solo_laws.specs.Closing.{ClosesAlike, CloseGoesOn, IsClosing, CallsInClose, IsClosed, CallsAfterClose};
ghost use Rattle.solo_laws.specs.Road.{Lined, SearchesAlike};
ghost use Rattle.solo_laws.specs.Spawning.{SpawnsAlike, RefusesAlike, EmptyAlike};
ghost use Rattle.solo_laws.specs.Tabled.{Stands, named};

/// A new executor stands where the new plain scheduler does.
pub fn both_begin_alike<F, T, X>()
    ensures { (its : ℕ → Lent) (limit : ℕ) (kind : Kind) (is_static : Bool) (s : Solo F T X) → IsNew limit kind s
        → counts kind ≡ not is_static → Stands its s (new limit is_static) }
{}

/// As long as the two queues are what is due without a keeper, by marks and in order, a search of them finds what the plain
/// scheduler takes where it looks first at the mark that the turn names; and the queues are again what is due.
pub fn a_search_takes_what_is_due()
    ensures { (name : ℕ → Task) (lines : LinesValue) (due : List Due) → Lined name lines due → SearchesAlike name lines due }
{}

/// Where both stand alike, a take leaves them alike: it is a try of the plain scheduler. Here and below the plain scheduler tells
/// who lay down last, and fewer tasks came into a queue than it accepts in its life.
pub fn a_take_is_a_try<F, T, X>()
    ensures { (its : ℕ → Lent) (s : Solo F T X) (p : Plain T (SoloWaker X)) → Stands its s p → TakesAlike (named its) (Stands its) s p }
{}

/// And so does a wake.
pub fn a_wake_is_a_wake<F, T, X>()
    ensures { (its : ℕ → Lent) (s : Solo F T X) (p : Plain T (SoloWaker X)) → Stands its s p → WakesAlike (named its) (Stands its) s p }
{}

/// So does the drop of a task's waker, and a wake by one that then goes.
pub fn a_waker_goes_alike<F, T, X>()
    ensures { (its : ℕ → Lent) (s : Solo F T X) (p : Plain T (SoloWaker X)) → Stands its s p
        → ReleasesAlike (named its) (Stands its) s p × UsesAlike (named its) (Stands its) s p }
{}

/// So does a cancel, with the call of who awaited the task.
pub fn a_cancel_is_a_cancel<F, T, X>()
    ensures { (its : ℕ → Lent) (s : Solo F T X) (p : Plain T (SoloWaker X)) → Stands its s p → CancelsAlike (named its) (Stands its) s p }
{}

/// So does a detach: an output that was kept is dropped.
pub fn a_detach_is_a_detach<F, T, X>()
    ensures { (its : ℕ → Lent) (s : Solo F T X) (p : Plain T (SoloWaker X)) → Stands its s p → DetachesAlike (named its) (Stands its) s p }
{}

/// So does a copy of a task's waker, also one that is refused.
pub fn a_copy_is_a_copy<F, T, X>()
    ensures { (its : ℕ → Lent) (s : Solo F T X) (p : Plain T (SoloWaker X)) → Stands its s p → CopiesAlike (named its) (Stands its) s p }
{}

/// So does a poll of a handle: with a copy of its waker where it has to wait and the copy isn't refused, and the drop of the waker
/// that was left before.
pub fn a_handle_is_polled_alike<F, T, X>()
    ensures { (its : ℕ → Lent) (s : Solo F T X) (p : Plain T (SoloWaker X)) → Stands its s p → HandlesAlike (named its) (Stands its) s p }
{}

/// So does the drop of a handle, which cancels and detaches its task.
pub fn a_handle_goes_alike<F, T, X>()
    ensures { (its : ℕ → Lent) (s : Solo F T X) (p : Plain T (SoloWaker X)) → Stands its s p
        → HandleDropsAlike (named its) (Stands its) s p }
{}

/// So does the end of a poll that gave no output: the future waits, or is queued again, or is to be dropped.
pub fn a_poll_ends_alike<F, T, X>()
    ensures { (its : ℕ → Lent) (s : Solo F T X) (p : Plain T (SoloWaker X)) → Stands its s p → PendsAlike (named its) (Stands its) s p its }
{}

/// And one that gave an output is nothing to the executor until its future is dropped.
pub fn a_poll_gives_alike<F, T, X>()
    ensures { (its : ℕ → Lent) (s : Solo F T X) (p : Plain T (SoloWaker X)) → Stands its s p → GivesAlike (named its) (Stands its) s p }
{}

/// A spawn that isn't refused is one of the plain scheduler: its future has the next number, and comes last in the table.
pub fn a_spawn_is_a_spawn<F, T, X>()
    ensures { (its : ℕ → Lent) (s : Solo F T X) (p : Plain T (SoloWaker X)) → Stands its s p → SpawnsAlike its s p }
{}

/// One that is refused is refused by the plain scheduler: `Full` exactly where that says so.
pub fn a_refused_spawn_is_refused<F, T, X>()
    ensures { (its : ℕ → Lent) (s : Solo F T X) (p : Plain T (SoloWaker X)) → Stands its s p → RefusesAlike its s p }
{}

/// And both say alike whether they are empty.
pub fn both_say_whether_empty<F, T, X>()
    ensures { (its : ℕ → Lent) (s : Solo F T X) (p : Plain T (SoloWaker X)) → Stands its s p → EmptyAlike its s p }
{}

/// The end of a future's drop leaves both alike, with the call or the drop of who awaits its task, where no output is to be dropped
/// first.
pub fn a_drop_ends_alike<F, T, X>()
    ensures { (its : ℕ → Lent) (s : Solo F T X) (p : Plain T (SoloWaker X)) → Stands its s p
        → GivenDropsAlike its s p × ClosedDropsAlike its s p }
{}

/// And so does the end of an output's drop, with the call of who awaits its task.
pub fn an_output_goes_alike<F, T, X>()
    ensures { (its : ℕ → Lent) (s : Solo F T X) (p : Plain T (SoloWaker X)) → Stands its s p → LosesAlike its s p }
{}

/// A leak, with the call of each waker that it has taken out, is one of the plain scheduler.
pub fn a_leak_is_a_leak<F, T, X>()
    ensures { (its : ℕ → Lent) (s : Solo F T X) (p : Plain T (SoloWaker X)) → Stands its s p → LeaksAlike its s p }
{}

/// The drop of an executor that isn't static is that of the plain scheduler: its futures are dropped in the order of spawning, and the
/// first is handed out for that.
pub fn a_close_is_a_close<F, T, X>()
    ensures { (its : ℕ → Lent) (s : Solo F T X) (p : Plain T (SoloWaker X)) → Stands its s p → ClosesAlike its s p }
{}

/// Once one of them is dropped the next is handed out; after the last the owner is handed the sleepers and those who await a task, to be
/// called as the plain scheduler does, and no future.
pub fn a_close_goes_on<F, T, X>()
    ensures { (its : ℕ → Lent) (s : Solo F T X) (p : Plain T (SoloWaker X)) → CloseGoesOn its s p }
{}

/// What the drop of one of them calls on tasks leaves both alike, too.
pub fn calls_in_a_close_are_alike<F, T, X>()
    ensures { (its : ℕ → Lent) (all gone left : List ℕ) (s : Solo F T X) (p : Plain T (SoloWaker X)) → IsClosing its all gone left s p
        → CallsInClose its s p all gone left }
{}

/// And so does what is called on tasks once the drop has come to its end.
pub fn calls_after_a_close_are_alike<F, T, X>()
    ensures { (its : ℕ → Lent) (s : Solo F T X) (p : Plain T (SoloWaker X)) → IsClosed its s p → CallsAfterClose its s p }
{}
