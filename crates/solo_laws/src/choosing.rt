//! How runs of an executor of one owner choose what they take and keep, in the words of the plain scheduler.
ghost use Rattle.std.specs.Prelude.{◌≡◌, ℕ, ◌≤◌, List, Some, length, true};
ghost use Rattle.solo.specs.declared.names.SoloWaker.{SoloWaker};
ghost use Rattle.solo.specs.declared.owed.Lent.{Lent};
ghost use Rattle.solo.specs.declared.solo.Solo.{Solo};
ghost use Rattle.plain_scheduler.specs.State.{Choice, Event, Plain};
ghost use Rattle.plain_scheduler.specs.Calls.{Call};
ghost use Rattle.plain_scheduler.specs.Searches.{Search, finds, searches};
ghost use Rattle.plain_scheduler.specs.Usual.{IsUsual, RobsAsUsual};
ghost use Rattle.solo.specs.Lines.{mark_of_turn};
ghost use Rattle.solo_laws.specs.Choosing.{SearchesAt};
ghost use Rattle.solo_laws.specs.Counting.{counts_of};
ghost use Rattle.solo_laws.specs.Courses.{Acts};
ghost use Rattle.solo_laws.specs.Led.{IsLed};
ghost use Rattle.solo_laws.specs.Making.{ActsFrom};
ghost use Rattle.solo_laws.specs.Ordering.{order_of};
ghost use Rattle.solo_laws.specs.Owner.{Owner};
ghost use Rattle.solo_laws.specs.Road.{wakes};

/// Wherever a list of calls leads, and whatever is called there: where the plain scheduler comes to a search by a run, that run of the
/// executor searches, and both stand alike there.
pub fn runs_search_alike<F, T, X>()
    ensures { (its : ℕ → Lent) (owner : Owner) (c : Choice) (s : Solo F T X) (p : Plain T (SoloWaker X)) (now : Owner) (z : Solo F T X)
        (call : Call T (SoloWaker X)) (shown : List (Event T (SoloWaker X))) → IsLed its owner s p → length p.lying ≤ c.tells
        → Acts its owner c s p call shown now z → (x : Search T (SoloWaker X)) → searches wakes c call p ≡ Some x
        → SearchesAt its owner c s x now z }
{}

/// And a run that takes a future there chooses as usual: it looks first at the mark that the executor's turn names, keeps as many of the
/// next ones as a run of the plain scheduler usually does, by what it has counted, and moves as many of another's.
pub fn calls_choose_as_usual<F, T, X>()
    ensures { (its : ℕ → Lent) (owner : Owner) (c : Choice) (s : Solo F T X) (p : Plain T (SoloWaker X)) (now : Owner) (z : Solo F T X)
        (call : Call T (SoloWaker X)) (shown : List (Event T (SoloWaker X))) → IsLed its owner s p → length p.lying ≤ c.tells
        → Acts its owner c s p call shown now z → IsUsual wakes c (mark_of_turn s.lines.turn) (counts_of owner) call p }
{}

/// And where it neither keeps any itself nor is one due that nobody keeps, it robs the first run that keeps any, in the order in which
/// others look at own queues, from the word on at which its walk begins.
pub fn calls_rob_as_usual<F, T, X>()
    ensures { (its : ℕ → Lent) (owner : Owner) (c : Choice) (s : Solo F T X) (p : Plain T (SoloWaker X)) (now : Owner) (z : Solo F T X)
        (call : Call T (SoloWaker X)) (shown : List (Event T (SoloWaker X))) → IsLed its owner s p → length p.lying ≤ c.tells
        → (acts : Acts its owner c s p call shown now z) (one two : ℕ) → ActsFrom its c s p one two owner call shown now z acts
        → (x : Search T (SoloWaker X)) → searches wakes c call p ≡ Some x → finds x ≡ true
        → RobsAsUsual wakes c (order_of s) one x }
{}
