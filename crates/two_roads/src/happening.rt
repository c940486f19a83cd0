//! Each act of the machine is a call that the executor's owner makes.
ghost use Rattle.std.specs.Prelude.{◌≡◌, ◌≤◌, ℕ, List, reverse, true};
ghost use Rattle.queue_steps.specs.ClosableQueue.{most_accepted};
ghost use Rattle.executor_model.specs.Steps.{is_static_kind, stack, start};
ghost use Rattle.executor_model.specs.declared.kind.Kind.{Kind as MachineKind};
ghost use Rattle.machine_roads.specs.Within.{Act, AreActs, IsAct, is_on_way};
ghost use Rattle.plain_scheduler.specs.Calls.{new};
ghost use Rattle.plain_scheduler.specs.State.{Who};
ghost use Rattle.solo.specs.declared.solo.Solo.{Solo};
ghost use Rattle.solo_laws.specs.Making.{by_number};
ghost use Rattle.solo_laws.specs.Owner.{new_owner};
ghost use Rattle.two_roads.specs.Acting.{left_of};
ghost use Rattle.two_roads.specs.Happening.{AreActed, IsActed, MayAct, MemoryFits, NamesAlike, queued_in};
ghost use Rattle.two_roads.specs.SameList.{AreNew, SameList, plain_of};

/// Wherever a list of acts of a new machine and a list of calls of a new executor of one owner that is of these steps have led, and both
/// name alike, each further act of the machine is a call that the owner makes, refused memory as the act and from the same words on; and
/// both name alike behind it. The executor has to have what the call takes: its queues may accept as many tasks more, and a future that
/// comes, or a run, has a number. And as to memory: for a future it is refused in the act only where the executor has no room for one; a
/// copy of a task's waker, that of a kept one or for a handle that waits, only where that task has as many references as it may, and it has
/// one at all; and where a tick or a run searches in vain in a poll by a task's waker, that task has two references fewer than it may.
pub fn each_act_happens<F, T, X>()
    ensures { (number : X → ℕ) (outside : ℕ → X) (numbers : (n : ℕ) → number (outside n) ≡ n) (value : T) (future : F)
        (limit : ℕ) (kind : MachineKind) (parties : ℕ) (acts : List Act) (first : Solo F T X) (before : Who → ℕ)
        → AreActs (start limit kind parties) acts
        → (l : SameList by_number number limit kind parties acts first before) → let s = left_of (start limit kind parties) acts in
        let p = plain_of l in
        NamesAlike s l.after l.last p → (a : Act) → IsAct s a → is_on_way (reverse (stack s a.party)) a.first ≡ true
        → MayAct number s a l.after l.last p value outside → IsActed number s a l.after l.last p }
{}

/// So, from a new machine and a new executor on, each list of acts is a list of calls that the executor's owner makes, and the machine's
/// trace tells of what these show: where memory, wherever those before it have led, is for each act as said above, and what the acts may
/// queue together is no more than a queue accepts in its life: an act 15 tasks at most, and many acts none; a leak six for each future that
/// came before it; and a new run 3 * 512, for the 512 that it may give back as it goes.
pub fn acts_happen<F, T, X>()
    ensures { (number : X → ℕ) (outside : ℕ → X) (numbers : (n : ℕ) → number (outside n) ≡ n) (value : T) (future : F)
        (limit : ℕ) (kind : MachineKind) (parties : ℕ) (acts : List Act) (first : Solo F T X) (before : Who → ℕ)
        → AreActs (start limit kind parties) acts
        → AreNew limit kind first → queued_in 0 acts ≤ most_accepted
        → MemoryFits number value outside acts (start limit kind parties) (new_owner before) first (new limit (is_static_kind kind))
        → AreActed number limit kind parties acts first before }
{}
