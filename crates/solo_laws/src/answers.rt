//! What the plain scheduler sees of a call is what an executor of one owner hands out and answers.
ghost use Rattle.std.specs.Prelude.{◌≡◌, ℕ, List, [], ◌++◌, Bool, not};
ghost use Rattle.solo.specs.Solo.{IsNew, counts};
ghost use Rattle.solo.specs.declared.names.Kind.{Kind};
ghost use Rattle.solo.specs.declared.names.SoloWaker.{SoloWaker};
ghost use Rattle.solo.specs.declared.owed.Lent.{Lent};
ghost use Rattle.solo.specs.declared.solo.Solo.{Solo};
ghost use Rattle.plain_scheduler.specs.Calls.{Call, course, new};
ghost use Rattle.plain_scheduler.specs.State.{Choice, Event, Plain, Who};
ghost use Rattle.solo_laws.specs.Closing.{AllThere, IsClosed};
ghost use Rattle.solo_laws.specs.Courses.{Leads};
ghost use Rattle.solo_laws.specs.LastCalls.{LastCalls};
ghost use Rattle.solo_laws.specs.NoneLost.{NoneIsLost};
ghost use Rattle.solo_laws.specs.Owner.{Owner, new_owner};
ghost use Rattle.solo_laws.specs.Road.{drops, lents, wakes};
ghost use Rattle.solo_laws.specs.Shown.{CancelsShown, ClosedDropsShown, CopiesShown, DetachesShown, GivenDropsShown};
ghost use Rattle.solo_laws.specs.Shown.{GivesShown, HandleDropsShown, HandlesShown, LeaksShown, LosesShown, PendsShown, ReleasesShown};
ghost use Rattle.solo_laws.specs.Shown.{SpawnsShown, TakesShown, UsesShown, WakesShown};
ghost use Rattle.solo_laws.specs.Tabled.{Stands};

/// Where both stand alike, a call on a task's waker shows the sleeper that it hands out, and whether a copy is refused.
pub fn wakers_show_alike<F, T, X>()
    ensures wakes { (its : ℕ → Lent) (s : Solo F T X) (p : Plain T (SoloWaker X)) → Stands its s p → WakesShown its s p }
    ensures releases { (its : ℕ → Lent) (s : Solo F T X) (p : Plain T (SoloWaker X)) → Stands its s p → ReleasesShown its s p }
    ensures uses { (its : ℕ → Lent) (s : Solo F T X) (p : Plain T (SoloWaker X)) → Stands its s p → UsesShown its s p }
    ensures copies { (its : ℕ → Lent) (s : Solo F T X) (p : Plain T (SoloWaker X)) → Stands its s p → CopiesShown its s p }
{}

/// A cancel and a detach show whom they hand out too, and the output that is dropped.
pub fn handles_show_alike<F, T, X>()
    ensures cancels { (its : ℕ → Lent) (s : Solo F T X) (p : Plain T (SoloWaker X)) → Stands its s p → CancelsShown its s p }
    ensures detaches { (its : ℕ → Lent) (s : Solo F T X) (p : Plain T (SoloWaker X)) → Stands its s p → DetachesShown its s p }
    ensures drops { (its : ℕ → Lent) (s : Solo F T X) (p : Plain T (SoloWaker X)) → Stands its s p → HandleDropsShown its s p }
{}

/// A poll of a handle shows its answer, and what the drop of the waker that was left before hands out.
pub fn polls_of_handles_show_alike<F, T, X>()
    ensures { (its : ℕ → Lent) (s : Solo F T X) (p : Plain T (SoloWaker X)) → Stands its s p → HandlesShown its s p }
{}

/// A spawn that isn't refused shows the sleeper that it hands out.
pub fn spawns_show_alike<F, T, X>()
    ensures { (its : ℕ → Lent) (s : Solo F T X) (p : Plain T (SoloWaker X)) → Stands its s p → SpawnsShown its s p }
{}

/// A take hands out the future that the plain scheduler takes, to be polled or to be dropped as there, and says that there is none
/// where that does.
pub fn takes_show_alike<F, T, X>()
    ensures { (its : ℕ → Lent) (s : Solo F T X) (p : Plain T (SoloWaker X)) → Stands its s p → TakesShown its s p }
{}

/// The end of a poll hands a future out where the plain scheduler drops one.
pub fn polls_end_alike<F, T, X>()
    ensures pends { (its : ℕ → Lent) (s : Solo F T X) (p : Plain T (SoloWaker X)) → Stands its s p → PendsShown its s p }
    ensures gives { (its : ℕ → Lent) (s : Solo F T X) (p : Plain T (SoloWaker X)) → Stands its s p → GivesShown its s p }
{}

/// The end of a drop hands out an output where the plain scheduler drops one, and else who awaits the task.
pub fn drops_end_alike<F, T, X>()
    ensures given { (its : ℕ → Lent) (s : Solo F T X) (p : Plain T (SoloWaker X)) → Stands its s p → GivenDropsShown its s p }
    ensures closed { (its : ℕ → Lent) (s : Solo F T X) (p : Plain T (SoloWaker X)) → Stands its s p → ClosedDropsShown its s p }
    ensures loses { (its : ℕ → Lent) (s : Solo F T X) (p : Plain T (SoloWaker X)) → Stands its s p → LosesShown its s p }
{}

/// A leak shows the sleepers that are handed out as each waker that it has taken out is called.
pub fn leaks_show_alike<F, T, X>()
    ensures { (its : ℕ → Lent) (s : Solo F T X) (p : Plain T (SoloWaker X)) → Stands its s p → LeaksShown its s p }
{}

/// So, from new ones on, after each list of these calls, and of polls and drops of ticks, both stand alike, and the plain scheduler
/// has seen what was handed out and answered, in that order.
pub fn lists_of_calls_lead_alike<F, T, X>()
    ensures { (its : ℕ → Lent) (limit : ℕ) (kind : Kind) (is_static : Bool) (calls : List (Choice × Call T (SoloWaker X)))
        (first last : Solo F T X) (shown : List (Event T (SoloWaker X))) (before : Who → ℕ) (after : Owner) → IsNew limit kind first
        → counts kind ≡ not is_static → Leads its calls (new_owner before) first (new limit is_static) shown after last
        → Stands its last (course wakes calls (new limit is_static)) × ((course wakes calls (new limit is_static)).events ≡ shown) }
{}

/// Such a list loses no future: one that isn't dropped is due, or its task waits for a wake, or a user's code has it in hand. So where
/// none has one, each entry of the table has its future.
pub fn lists_lose_no_future<F, T, X>()
    ensures none { (its : ℕ → Lent) (limit : ℕ) (kind : Kind) (is_static : Bool) (calls : List (Choice × Call T (SoloWaker X)))
        (first last : Solo F T X) (shown : List (Event T (SoloWaker X))) (before : Who → ℕ) (after : Owner) → IsNew limit kind first
        → counts kind ≡ not is_static → Leads its calls (new_owner before) first (new limit is_static) shown after last
        → NoneIsLost (course wakes calls (new limit is_static)) }
    ensures there { (its : ℕ → Lent) (limit : ℕ) (kind : Kind) (is_static : Bool) (calls : List (Choice × Call T (SoloWaker X)))
        (first last : Solo F T X) (shown : List (Event T (SoloWaker X))) (before : Who → ℕ) (after : Owner) → IsNew limit kind first
        → counts kind ≡ not is_static → Leads its calls (new_owner before) first (new limit is_static) shown after last
        → lents (course wakes calls (new limit is_static)).inside ≡ [] → drops (course wakes calls (new limit is_static)).inside ≡ []
        → AllThere last.table.entries }
{}

/// And so after each such list that ends with the drop of the executor, with what is called while its futures are dropped.
pub fn lists_end_alike<F, T, X>()
    ensures { (its : ℕ → Lent) (limit : ℕ) (kind : Kind) (is_static : Bool) (calls ends : List (Choice × Call T (SoloWaker X)))
        (first middle last : Solo F T X) (shown others : List (Event T (SoloWaker X))) (before : Who → ℕ) (after : Owner)
        → IsNew limit kind first → counts kind ≡ not is_static
        → Leads its calls (new_owner before) first (new limit is_static) shown after middle
        → let p = course wakes calls (new limit is_static) in
        LastCalls its middle p ends others last
        → IsClosed its last (course wakes ends p) × ((course wakes ends p).events ≡ shown ++ others) }
{}
