//! In which order futures stand that come with one call.
ghost use Rattle.std.specs.Prelude.{◌≡◌, ◌∷◌, ◌++◌, ℕ, List, [], Option, filter, map, true};
ghost use Rattle.plain_scheduler.specs.Calls.{Call, Ends, Leak, does, living_from};
ghost use Rattle.plain_scheduler.specs.State.{Answer, Choice, Code, DropOwn, Plain};
ghost use Rattle.plain_laws.specs.Coming.{ComesBehind, GivesBack, takes_none, unkept, waits_idle};

/// Where nothing is taken in a call, and no run goes in it, what was due stands as it stood, and behind it what came, which no run keeps.
pub fn futures_come_behind<T, A>()
    ensures { (wakes : A → Option ℕ) (c : Choice) (call : Call T A) (p : Plain T A) → takes_none call p.inside ≡ true
        → ComesBehind p.due (does wakes c call p).due }
{}

/// As a run's drop ends, or behind its own future's output, it gives back what it keeps: all else stands as it stood, and behind it what
/// came, which no run keeps; among that what the run kept, in the order in which it kept it. What else is there was woken by who is told.
pub fn runs_give_back_in_order<T, A>()
    ensures { (wakes : A → Option ℕ) (c : Choice) (r : ℕ) (answer : Answer T) (p : Plain T A) (rest : List (Code T A))
        → p.inside ≡ DropOwn r answer ∷ rest → GivesBack r p.due (does wakes c Ends p).due }
{}

/// A leak appends each future that is idle, in the order of spawning, where nobody lies: whoever lies is told of the first, and what that
/// wakes stands behind it, whenever it was spawned.
pub fn leaks_append_in_order<T, A>()
    ensures { (wakes : A → Option ℕ) (c : Choice) (p : Plain T A) → p.lying ≡ []
        → (does wakes c Leak p).due ≡ p.due ++ map (unkept p) (filter (waits_idle p) (living_from 0 p.futures)) }
{}
