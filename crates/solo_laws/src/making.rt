//! Each call that an owner may make happens: there is what the executor's owner does for it.
ghost use Rattle.std.specs.Prelude.{◌≡◌, ◌≤◌, ℕ, Bool, List, ◌∷◌, not};
ghost use Rattle.queue_steps.specs.ClosableQueue.{most_accepted};
ghost use Rattle.solo.specs.Solo.{IsNew, counts};
ghost use Rattle.solo.specs.declared.names.Kind.{Kind};
ghost use Rattle.solo.specs.declared.names.SoloWaker.{SoloWaker};
ghost use Rattle.solo.specs.declared.owed.Lent.{Lent};
ghost use Rattle.solo.specs.declared.solo.Solo.{Solo};
ghost use Rattle.plain_scheduler.specs.Calls.{new};
ghost use Rattle.plain_scheduler.specs.State.{Plain, Who};
ghost use Rattle.solo_laws.specs.Led.{IsLed};
ghost use Rattle.solo_laws.specs.Heeding.{Fits};
ghost use Rattle.solo_laws.specs.LastMaking.{HappenLast, MayDrop};
ghost use Rattle.solo_laws.specs.Making.{Goes, Happens, MayCall, MayGo, NextIsFree, WakersAreKnown, Wish, by_number, queued_by};
ghost use Rattle.solo_laws.specs.Owner.{Owner, new_owner};

/// Wherever a list of calls leads both, the next future's name is free, and runs are polled by wakers of futures that came, each call that
/// the owner may make there happens, whatever memory refuses, and from whatever starting words runs walk.
pub fn each_call_happens<F, T, X>()
    ensures { (its : ℕ → Lent) (future : F) (owner : Owner) (s : Solo F T X) (p : Plain T (SoloWaker X)) (x : Wish T (SoloWaker X))
        → IsLed its owner s p → NextIsFree its owner s p → WakersAreKnown its owner s p → MayCall its owner s p x
        → Happens its owner s p x }
{}

/// Memory is then refused just as was wished, where each task's waker that the call copies is of a task that has references, at least two
/// fewer than it may have, and where a copy for a second look is refused to none but who lies down anew.
pub fn refusals_are_heeded<F, T, X>()
    ensures { (its : ℕ → Lent) (owner : Owner) (s : Solo F T X) (p : Plain T (SoloWaker X)) (x : Wish T (SoloWaker X))
        → IsLed its owner s p → (it : Happens its owner s p x) → Fits its it.choice p x.refusal x.call
        → it.choice.refusal ≡ x.refusal }
{}

/// So, from new ones on, each list of calls of which each may be made where those before it have led is one of the executor's: there is
/// what its owner does for each, and what is shown. What the calls may queue together is no more than a queue accepts in its life: a call
/// 15 tasks at most, and none where it asks whether the executor is empty, copies a waker, makes a tick, polls or drops a run, or gives an
/// output; a leak six for each future that came before it; and a new run 3 * 512, for the 512 that it may give back as it goes.
pub fn lists_of_calls_happen<F, T, X>()
    ensures { (future : F) (limit : ℕ) (kind : Kind) (is_static : Bool) (first : Solo F T X) (number : Who → ℕ)
        (xs : List (Wish T (SoloWaker X))) → IsNew limit kind first → counts kind ≡ not is_static
        → queued_by 0 xs ≤ most_accepted → MayGo by_number xs (new_owner number) first (new limit is_static)
        → Goes by_number xs (new_owner number) first (new limit is_static) }
{}

/// And so the last calls happen, from the executor's drop on, where it isn't static and no user's code has one of its futures in hand: the
/// calls on tasks and the ends of outputs' drops while its futures are dropped, the end of each of these drops, and what is called then.
pub fn last_calls_happen<F, T, X>()
    ensures { (its : ℕ → Lent) (owner : Owner) (s : Solo F T X) (p : Plain T (SoloWaker X)) (x : Wish T (SoloWaker X))
        (xs : List (Wish T (SoloWaker X))) → IsLed its owner s p → MayDrop its s p x xs → HappenLast its s p (x ∷ xs) }
{}
