//! The calls of an executor's owner as acts of the machine.
ghost use Rattle.std.specs.Prelude.{◌≡◌, ◌++◌, ℕ, List, not, true};
ghost use Rattle.executor_model.specs.Steps.{is_static_kind, start};
ghost use Rattle.executor_model.specs.declared.kind.Kind.{Kind as MachineKind};
ghost use Rattle.lone_machine.specs.Calling.{AreActed, EndSo, MayBeActs, MayDrop};
ghost use Rattle.plain_scheduler.specs.Calls.{Call, course, new};
ghost use Rattle.plain_scheduler.specs.State.{Choice, Event, Who};
ghost use Rattle.solo.specs.Solo.{IsNew, counts};
ghost use Rattle.solo.specs.declared.names.Kind.{Kind};
ghost use Rattle.solo.specs.declared.names.SoloWaker.{SoloWaker};
ghost use Rattle.solo.specs.declared.owed.Lent.{Lent};
ghost use Rattle.solo.specs.declared.solo.Solo.{Solo};
ghost use Rattle.solo_laws.specs.Courses.{Leads};
ghost use Rattle.solo_laws.specs.LastCalls.{LastCalls};
ghost use Rattle.solo_laws.specs.Road.{wakes};
ghost use Rattle.solo_laws.specs.Owner.{Owner, new_owner};

/// From a new executor and a new machine on, of the same limit and kind, each list of calls that the executor's owner makes is a list of
/// the machine's acts, and the machine's trace tells of what these calls show: where each of them may be an act, wherever acts that are
/// those before it have led.
pub fn calls_are_acts<F, T, X>()
    ensures { (its : ℕ → Lent) (number : X → ℕ) (limit : ℕ) (kind : MachineKind) (solo_kind : Kind) (parties : ℕ)
        (calls : List (Choice × Call T (SoloWaker X))) (first last : Solo F T X) (shown : List (Event T (SoloWaker X)))
        (before : Who → ℕ) (after : Owner) → IsNew limit solo_kind first → counts solo_kind ≡ not (is_static_kind kind)
        → (led : Leads its calls (new_owner before) first (new limit (is_static_kind kind)) shown after last)
        → MayBeActs number its (λ calm s. Unit {0}) true (start limit kind parties) led
        → AreActed number its (start limit kind parties) led }
{}

/// And so it is to the end: up to the executor's drop, with the calls in it and behind it.
pub fn calls_are_acts_to_the_end<F, T, X>()
    ensures { (its : ℕ → Lent) (number : X → ℕ) (limit : ℕ) (kind : MachineKind) (solo_kind : Kind) (parties : ℕ)
        (calls ends : List (Choice × Call T (SoloWaker X))) (first middle last : Solo F T X) (shown others : List (Event T (SoloWaker X)))
        (before : Who → ℕ) (after : Owner) → IsNew limit solo_kind first → counts solo_kind ≡ not (is_static_kind kind)
        → (led : Leads its calls (new_owner before) first (new limit (is_static_kind kind)) shown after middle)
        → LastCalls its middle (course wakes calls (new limit (is_static_kind kind))) ends others last
        → MayBeActs number its (MayDrop number (course wakes calls (new limit (is_static_kind kind))) ends) true
        (start limit kind parties) led
        → EndSo number (start limit kind parties) (shown ++ others) }
{}
