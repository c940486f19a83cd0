//! Names are nothing to the plain scheduler.
ghost use Rattle.std.specs.Prelude.{◌≡◌, ℕ, Bool, true, List, Option};
ghost use Rattle.plain_scheduler.specs.Calls.{Call, course, new};
ghost use Rattle.plain_scheduler.specs.State.{Choice, Plain};
ghost use Rattle.two_roads.specs.Plainly.{are_plain};
ghost use Rattle.two_roads.specs.Renaming.{AreBothDue, AreSame, renamed};

/// Of the same calls, but for the names of outputs and wakers, by the same choices, the plain scheduler makes the same, but for these
/// names: who is told is whoever lay down last.
pub fn names_are_nothing<T, U, A, B>()
    ensures { (output : T → U) (waker : A → B) (wakes : A → Option ℕ) (wakes_as : B → Option ℕ)
        (cs : List (Choice × Call T A)) (p : Plain T A) (ds : List (Choice × Call U B)) → ((a : A) → wakes_as (waker a) ≡ wakes a)
        → AreSame output waker wakes cs p ds → renamed output waker (course wakes cs p) ≡ course wakes_as ds (renamed output waker p) }
{}

/// Where each future is spawned plain, futures of both marks are never due: so it is nothing where a try or a tick looks first.
pub fn plain_futures_alone_are_due<T, A>()
    ensures { (wakes : A → Option ℕ) (limit : ℕ) (is_static : Bool) (cs : List (Choice × Call T A)) → are_plain cs ≡ true
        → ¬ AreBothDue (course wakes cs (new limit is_static)).due }
{}
