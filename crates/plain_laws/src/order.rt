//! The order in which runs take futures.
ghost use Rattle.std.specs.Prelude.{◌≡◌, ◌∷◌, ℕ, Bool, true, false, List, Option, is_some, slice_get};
ghost use Rattle.plain_scheduler.specs.Calls.{Call, course, new};
ghost use Rattle.plain_scheduler.specs.Lists.{any};
ghost use Rattle.plain_scheduler.specs.Moves.{is_due};
ghost use Rattle.plain_scheduler.specs.State.{Choice, Code, Plain, PollOwn};
ghost use Rattle.plain_laws.specs.Order.{InOrder, InWholeOrder, IsAlone, IsOnlyBegun, TakesDue, all_go_idle, is_others};

/// The order of queueing. Where no other run keeps a future, a run that alone takes futures takes those of each mark in the order in
/// which they came into the list, whatever the choices are, and whatever other calls do by which none is taken, those too that polls
/// make: what it took of a mark, and behind it what waits of it for the run, is what waited before, and behind it what came since. For
/// a run waits what it keeps, and behind that what no run keeps. So it is until the run goes: then it gives back what it keeps.
pub fn runs_take_futures_in_order<T, A>()
    ensures { (wakes : A → Option ℕ) (limit : ℕ) (is_static : Bool) (before cs : List (Choice × Call T A)) (r : ℕ)
        → IsAlone wakes r cs (course wakes before (new limit is_static)) → InOrder wakes r cs (course wakes before (new limit is_static)) }
{}

/// Where none was spawned urgent, it takes all futures in that order.
pub fn runs_take_plain_futures_in_order<T, A>()
    ensures { (wakes : A → Option ℕ) (limit : ℕ) (is_static : Bool) (before cs : List (Choice × Call T A)) (r : ℕ)
        → IsAlone wakes r cs (course wakes before (new limit is_static))
        → InWholeOrder wakes r cs (course wakes before (new limit is_static)) }
{}

/// No other run keeps a future where a run is the only one that was polled and isn't over, in lists in which no run's drop ends while
/// it is polled: a run that is dropped, or whose own future gives its output, gives back what it keeps as it goes.
pub fn only_begun_runs_keep_futures<T, A>()
    ensures { (wakes : A → Option ℕ) (limit : ℕ) (is_static : Bool) (before : List (Choice × Call T A)) (r : ℕ)
        → all_go_idle wakes before (new limit is_static) ≡ true → IsOnlyBegun wakes r before (new limit is_static)
        → any (is_others r) (course wakes before (new limit is_static)).due ≡ false }
{}

/// As the poll of a run's own future ends with Pending, the run takes a future that is due, if some are, whoever keeps them.
pub fn runs_take_due_futures<T, A>()
    ensures { (wakes : A → Option ℕ) (c : Choice) (r : ℕ) (w : A) (p : Plain T A) (rest : List (Code T A))
        → p.inside ≡ PollOwn r w ∷ rest → is_some (slice_get p.runs r) ≡ true → any is_due p.due ≡ true → TakesDue wakes c r p }
{}
