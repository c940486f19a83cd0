//! Where runs search for futures, and what is chosen there.
ghost use Rattle.std.specs.Prelude.{
  ◌≡◌,
  ◌≤◌,
  ◌==◌,
  ℕ,
  Option,
  None,
  Some,
  false,
  true,
  length,
  filter,
  is_some,
  nat_lt,
  slice_get,
};
ghost use Rattle.plain_scheduler.specs.Calls.{Call, does};
ghost use Rattle.plain_scheduler.specs.Lists.{any};
ghost use Rattle.plain_scheduler.specs.Moves.{is_kept};
ghost use Rattle.plain_scheduler.specs.Searches.{Search, searches};
ghost use Rattle.plain_scheduler.specs.State.{Choice, Plain, Run};
ghost use Rattle.plain_scheduler.specs.Takes.{take};
ghost use Rattle.plain_scheduler.specs.Usual.{IsKeptByOthers};
ghost use Rattle.plain_laws.specs.Searches.{finds_in, looks_first, taking_as};
ghost use Rattle.plain_laws.specs.Order.{count};

/// Where a run searches in a call, the call takes what that run takes there, or does what is done where it finds none.
pub fn runs_search_so<T, A>()
    ensures { (wakes : A → Option ℕ) (c : Choice) (call : Call T A) (p : Plain T A) (x : Search T A)
        → searches wakes c call p ≡ Some x → does wakes c call p ≡ take wakes c (Run x.run x.waker) x.at }
{}

/// Where none does, it is nothing to a call which mark is looked at first, what a run keeps, whom it robs and how many more it moves: to
/// each call but a try and a tick's poll.
pub fn choices_are_of_searches<T, A>()
    ensures { (wakes : A → Option ℕ) (c d : Choice) (call : Call T A) (p : Plain T A) → searches wakes c call p ≡ None
        → looks_first call ≡ false → does wakes (taking_as d c) call p ≡ does wakes c call p }
{}

/// Nor does it matter to whether a run searches, and where: there who is told is all that is chosen.
pub fn searches_are_told_alone<T, A>()
    ensures { (wakes : A → Option ℕ) (c d : Choice) (call : Call T A) (p : Plain T A) → c.tells ≡ d.tells
        → searches wakes c call p ≡ searches wakes d call p }
{}

/// A run counts one more future behind a call just where it searches in the call and finds one.
pub fn runs_count_what_they_find<T, A>()
    ensures { (wakes : A → Option ℕ) (c : Choice) (call : Call T A) (p : Plain T A) (r : ℕ) → is_some (slice_get p.runs r) ≡ true
        → nat_lt (count r p) (count r (does wakes c call p)) ≡ finds_in wakes c call p r }
{}

/// A run that robs another takes from that one alone: of what any other run keeps there is no less behind the call.
pub fn runs_rob_one_alone<T, A>()
    ensures { (wakes : A → Option ℕ) (c : Choice) (call : Call T A) (p : Plain T A) (x : Search T A) (k : ℕ)
        → searches wakes c call p ≡ Some x → IsKeptByOthers x.run x.at.due
        → any (is_kept c.robs) x.at.due ≡ true → (k == c.robs) ≡ false
        → length (filter (is_kept k) p.due) ≤ length (filter (is_kept k) (does wakes c call p).due) }
{}
