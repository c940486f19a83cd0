//! The order of queueing, of the executor of one owner and of the step machine: what a run takes that alone takes futures.
ghost use Rattle.std.specs.Prelude.{◌≡◌, ◌==◌, ◌++◌, ℕ, Bool, false, true, List, [], None, map, not};
ghost use Rattle.executor_parts.specs.declared.mark.Mark.{Mark};
ghost use Rattle.executor_model.specs.Steps.{is_static_kind, start};
ghost use Rattle.executor_model.specs.World.{own_of};
ghost use Rattle.executor_model.specs.declared.kind.Kind.{Kind as MachineKind};
ghost use Rattle.machine_roads.specs.DropActs.{plain_behind};
ghost use Rattle.machine_roads.specs.Road.{Follows};
ghost use Rattle.machine_roads.specs.Within.{Act, ActAlike, AreActs};
ghost use Rattle.plain_laws.specs.Coming.{IsPart};
ghost use Rattle.plain_laws.specs.Order.{is_urgent, of_mark, takes_alone};
ghost use Rattle.plain_scheduler.specs.Calls.{Call, course, new};
ghost use Rattle.plain_scheduler.specs.Lists.{any};
ghost use Rattle.plain_scheduler.specs.State.{Choice, Event, Who};
ghost use Rattle.solo.specs.OwnQueues.{first_of};
ghost use Rattle.solo.specs.Solo.{IsNew, counts};
ghost use Rattle.solo.specs.declared.names.Kind.{Kind};
ghost use Rattle.solo.specs.declared.names.SoloWaker.{SoloWaker};
ghost use Rattle.solo.specs.declared.owed.Lent.{Lent};
ghost use Rattle.solo.specs.declared.solo.Solo.{Solo};
ghost use Rattle.solo_laws.specs.Courses.{Leads};
ghost use Rattle.solo_laws.specs.Owner.{Owner, new_owner};
ghost use Rattle.solo_laws.specs.Road.{wakes};
ghost use Rattle.solo_laws.specs.Tabled.{named};
ghost use Rattle.two_roads.specs.Acting.{acts_by, left_of};
ghost use Rattle.two_roads.specs.ActsInOrder.{IsAloneInActs, IsOnlyBegunInActs, all_wait_in, come_in, line_of_all, line_of_mark};
ghost use Rattle.two_roads.specs.ActsInOrder.{taken_in, wait_in};
ghost use Rattle.two_roads.specs.InOrder.{HandsInOrder, IsAloneIn, IsOnlyBegunIn, all_wait, handed, polls_in, waits};

/// Where a list of calls has led from a new executor of one owner on, nothing stands in the own queue of another run, and in the calls
/// that go on run r alone takes futures and doesn't go, it is handed the tasks of each mark in the order in which they were queued: what
/// it was handed, and behind it what waits, is what waited before, and behind it what came since. For a run wait the tasks in its own
/// queue, and behind them those in the executor's. What it was handed with a call, if it has counted another since, is what is shown last,
/// to be polled or dropped: it counts each that it is handed, and with every 64th begins anew.
pub fn tasks_are_handed_in_order<F, T, X>()
    ensures { (its : ℕ → Lent) (limit : ℕ) (kind : Kind) (is_static : Bool) (calls cs : List (Choice × Call T (SoloWaker X)))
        (first middle last : Solo F T X) (shown others : List (Event T (SoloWaker X))) (number : Who → ℕ) (before after : Owner) (r : ℕ)
        (m : Mark) → IsNew limit kind first → counts kind ≡ not is_static
        → Leads its calls (new_owner number) first (new limit is_static) shown before middle
        → (on : Leads its cs before middle (course wakes calls (new limit is_static)) others after last)
        → IsAloneIn r cs middle (course wakes calls (new limit is_static)) → HandsInOrder its r (of_mark m) (waits m r) shown on }
{}

/// Where no future is urgent, it is handed all tasks in that order.
pub fn plain_tasks_are_handed_in_order<F, T, X>()
    ensures { (its : ℕ → Lent) (limit : ℕ) (kind : Kind) (is_static : Bool) (calls cs : List (Choice × Call T (SoloWaker X)))
        (first middle last : Solo F T X) (shown others : List (Event T (SoloWaker X))) (number : Who → ℕ) (before after : Owner) (r : ℕ)
        → IsNew limit kind first → counts kind ≡ not is_static
        → Leads its calls (new_owner number) first (new limit is_static) shown before middle
        → (on : Leads its cs before middle (course wakes calls (new limit is_static)) others after last)
        → IsAloneIn r cs middle (course wakes calls (new limit is_static))
        → any is_urgent (course wakes cs (course wakes calls (new limit is_static))).futures ≡ false
        → HandsInOrder its r (λ q fs. fs) (all_wait r) shown on }
{}

/// The polls that a list shows in which run r alone takes futures and doesn't go are of tasks that the run was handed, in the order in
/// which it was handed these.
pub fn polls_shown_are_of_tasks_handed<F, T, X>()
    ensures { (its : ℕ → Lent) (limit : ℕ) (kind : Kind) (is_static : Bool) (calls cs : List (Choice × Call T (SoloWaker X)))
        (first middle last : Solo F T X) (shown others : List (Event T (SoloWaker X))) (number : Who → ℕ) (before after : Owner) (r : ℕ)
        → IsNew limit kind first → counts kind ≡ not is_static
        → Leads its calls (new_owner number) first (new limit is_static) shown before middle
        → (on : Leads its cs before middle (course wakes calls (new limit is_static)) others after last)
        → takes_alone wakes r cs (course wakes calls (new limit is_static)) ≡ true
        → IsPart (map (named its) (polls_in others)) (handed its r (λ q fs. fs) shown on) }
{}

/// Nothing stands in the own queue of another run where r is the only one that was polled and isn't over.
pub fn only_begun_runs_have_tasks<F, T, X>()
    ensures { (its : ℕ → Lent) (limit : ℕ) (kind : Kind) (is_static : Bool) (calls : List (Choice × Call T (SoloWaker X)))
        (first middle : Solo F T X) (shown : List (Event T (SoloWaker X))) (number : Who → ℕ) (before : Owner) (r : ℕ)
        → IsNew limit kind first → counts kind ≡ not is_static
        → Leads its calls (new_owner number) first (new limit is_static) shown before middle
        → IsOnlyBegunIn r calls middle → (k : ℕ) → (r == k) ≡ false → first_of k middle.runs ≡ None }
{}

/// So it is with the futures that a run of the machine takes, where one party of a new machine at a time begins calls, also in polls and
/// drops, and user code answers and ends. What it takes in an act, if it has counted another since, is what the trace tells of last. Who
/// waits is read off the machine's queues where the acts begin and where they end: both stand alike there, so in no drop in which a call
/// still owes something.
pub fn futures_are_taken_in_order()
    ensures { (limit : ℕ) (kind : MachineKind) (parties : ℕ) (before acts : List Act)
        (go : ActAlike (start limit kind parties) (new limit (is_static_kind kind)) before)
        → let s = left_of (start limit kind parties) before in
        let q = plain_behind before (start limit kind parties) (new limit (is_static_kind kind)) go in
        (on : ActAlike s q acts) (r : ℕ) (m : Mark) → IsAloneInActs r s q acts on → Follows s.world q
        → Follows (left_of s acts).world (plain_behind acts s q on)
        → taken_in r (of_mark m) s q acts on ++ wait_in m r (left_of s acts).world
        ≡ wait_in m r s.world ++ come_in r (of_mark m) (line_of_mark m r) s q acts on }
{}

/// And so with all futures, where none is urgent.
pub fn plain_futures_are_taken_in_order()
    ensures { (limit : ℕ) (kind : MachineKind) (parties : ℕ) (before acts : List Act)
        (go : ActAlike (start limit kind parties) (new limit (is_static_kind kind)) before)
        → let s = left_of (start limit kind parties) before in
        let q = plain_behind before (start limit kind parties) (new limit (is_static_kind kind)) go in
        (on : ActAlike s q acts) (r : ℕ) → IsAloneInActs r s q acts on → Follows s.world q
        → Follows (left_of s acts).world (plain_behind acts s q on) → any is_urgent (plain_behind acts s q on).futures ≡ false
        → taken_in r (λ q fs. fs) s q acts on ++ all_wait_in r (left_of s acts).world
        ≡ all_wait_in r s.world ++ come_in r (λ q fs. fs) (line_of_all r) s q acts on }
{}

/// Nothing stands in the own queue of another run of the machine where r is the only one that was polled and isn't over.
pub fn only_begun_runs_have_futures()
    ensures { (limit : ℕ) (kind : MachineKind) (parties : ℕ) (before : List Act) → AreActs (start limit kind parties) before
        → (go : ActAlike (start limit kind parties) (new limit (is_static_kind kind)) before) (r : ℕ)
        → let s = left_of (start limit kind parties) before in
        IsOnlyBegunInActs r (acts_by (start limit kind parties) (new limit (is_static_kind kind)) before go) s.world
        → Follows s.world (plain_behind before (start limit kind parties) (new limit (is_static_kind kind)) go)
        → (k : ℕ) → (r == k) ≡ false → own_of s.world k ≡ [] }
{}
