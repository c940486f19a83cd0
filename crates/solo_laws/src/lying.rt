//! Polls of ticks, and their drops, are those of the plain scheduler.
ghost use Rattle.std.specs.Prelude.{◌≡◌, ℕ, true};
ghost use Rattle.solo.specs.declared.names.SoloWaker.{SoloWaker};
ghost use Rattle.solo.specs.declared.owed.Lent.{Lent};
ghost use Rattle.solo.specs.declared.solo.Solo.{Solo};
ghost use Rattle.plain_scheduler.specs.State.{ARun, ATick, Plain, Who};
ghost use Rattle.solo_laws.specs.Led.{IsLed};
ghost use Rattle.solo_laws.specs.Numbered.{IsNumbered};
ghost use Rattle.solo_laws.specs.Owner.{HasRoom, Owner, has_tick};
ghost use Rattle.solo_laws.specs.Running.{RunsBegin, RunsAreUnmade};
ghost use Rattle.solo_laws.specs.Tabled.{Stands, goes_on};
ghost use Rattle.solo_laws.specs.Ticking.{TicksBegin, TicksLeave, TicksRest, TicksTake, TicksAreUnmade, TicksAreRefused, TicksLieRefused};

/// Where both stand alike, and who lies has a number of its own, they do so once a tick is made.
pub fn ticks_begin_alike<F, T, X>()
    ensures { (its : ℕ → Lent) (number : Who → ℕ) (s : Solo F T X) (p : Plain T (SoloWaker X)) → Stands its s p
        → IsNumbered number s.sleepers p.lying → TicksBegin its number s p }
{}

/// A tick that finds a task takes what the plain scheduler takes: it
/// gets up if it lay, a sleeper is called, and then the future is polled or dropped.
pub fn ticks_take_alike<F, T, X>()
    ensures { (its : ℕ → Lent) (number : Who → ℕ) (s : Solo F T X) (p : Plain T (SoloWaker X)) → Stands its s p
        → IsNumbered number s.sleepers p.lying → TicksTake its number s p }
{}

/// One that finds nothing lies down where the plain scheduler's does: it falls asleep with a copy of its waker, in the place of the one
/// with which it lay, which goes, and looks again once it has fallen asleep anew.
pub fn ticks_rest_alike<F, T, X>()
    ensures { (its : ℕ → Lent) (number : Who → ℕ) (s : Solo F T X) (p : Plain T (SoloWaker X)) → Stands its s p
        → IsNumbered number s.sleepers p.lying → TicksRest its number s p }
{}

/// One that goes leaves the sleepers; where it was told of a task it tells another.
pub fn ticks_leave_alike<F, T, X>()
    ensures { (its : ℕ → Lent) (number : Who → ℕ) (s : Solo F T X) (p : Plain T (SoloWaker X)) → Stands its s p
        → IsNumbered number s.sleepers p.lying → TicksLeave its number s p }
{}

/// A tick whose making is refused leaves both as they were.
pub fn ticks_are_unmade_alike<F, T, X>()
    ensures { (its : ℕ → Lent) (number : Who → ℕ) (s : Solo F T X) (p : Plain T (SoloWaker X)) → Stands its s p
        → IsNumbered number s.sleepers p.lying → TicksAreUnmade its number s p }
{}

/// One that finds nothing, and is refused a copy of its waker, is as it was; where the copy for its second look is refused it lies.
pub fn ticks_are_refused_alike<F, T, X>()
    ensures once { (its : ℕ → Lent) (number : Who → ℕ) (s : Solo F T X) (p : Plain T (SoloWaker X)) → Stands its s p
        → IsNumbered number s.sleepers p.lying → TicksAreRefused its number s p }
    ensures later { (its : ℕ → Lent) (number : Who → ℕ) (s : Solo F T X) (p : Plain T (SoloWaker X)) → Stands its s p
        → IsNumbered number s.sleepers p.lying → TicksLieRefused its number s p }
{}

/// Fewer lie than live, wherever a list of calls leads: a tick that was made and hasn't gone has its room, and so has a run whose own
/// future isn't over.
pub fn each_has_its_room<F, T, X>()
    ensures ticks { (its : ℕ → Lent) (owner : Owner) (s : Solo F T X) (p : Plain T (SoloWaker X)) → IsLed its owner s p
        → (t : ℕ) → has_tick t owner ≡ true → HasRoom (ATick t) s p }
    ensures runs { (its : ℕ → Lent) (owner : Owner) (s : Solo F T X) (p : Plain T (SoloWaker X)) → IsLed its owner s p
        → (r : ℕ) → goes_on r p ≡ true → HasRoom (ARun r) s p }
{}

/// A run that is made is one of the plain scheduler, also one that is refused.
pub fn runs_begin_alike<F, T, X>()
    ensures made { (its : ℕ → Lent) (number : Who → ℕ) (s : Solo F T X) (p : Plain T (SoloWaker X)) → Stands its s p
        → IsNumbered number s.sleepers p.lying → RunsBegin its number s p }
    ensures refused { (its : ℕ → Lent) (number : Who → ℕ) (s : Solo F T X) (p : Plain T (SoloWaker X)) → Stands its s p
        → IsNumbered number s.sleepers p.lying → RunsAreUnmade its number s p }
{}
