//! By the same calls the step machine, one party at a time alone, and the executor of one owner give the same.
ghost use Rattle.std.specs.Prelude.{◌≡◌, ℕ, ◌++◌, ◌∷◌, List};
ghost use Rattle.executor_model.specs.Quiet.{IsQuiet};
ghost use Rattle.executor_model.specs.Steps.{is_static_kind, start};
ghost use Rattle.executor_model.specs.declared.call.Call.TheVariants.{DropExecutor as DropsExecutor};
ghost use Rattle.executor_model.specs.declared.step.Step.TheVariants.{Begin};
ghost use Rattle.executor_model.specs.declared.kind.Kind.{Kind as MachineKind};
ghost use Rattle.machine_roads.specs.Course.{AreLone, Lone};
ghost use Rattle.machine_roads.specs.DropActs.{AreDropActs, DropActAlike, StandsDropping, left_by as left_by_acts, plain_behind};
ghost use Rattle.machine_roads.specs.Seeing.{heard_in};
ghost use Rattle.machine_roads.specs.View.{wakes as wakes_in};
ghost use Rattle.machine_roads.specs.Within.{Act, ActAlike, AreActs, IsAct, standing};
ghost use Rattle.plain_scheduler.specs.Calls.{DropExecutor, course, does, new};
ghost use Rattle.plain_scheduler.specs.State.{Choice, Who};
ghost use Rattle.solo.specs.declared.names.SoloWaker.{SoloWaker};
ghost use Rattle.solo.specs.declared.owed.Lent.{Lent};
ghost use Rattle.solo.specs.declared.solo.Solo.{Solo};
ghost use Rattle.solo_laws.specs.Closing.{IsClosed};
ghost use Rattle.solo_laws.specs.LastMaking.{HappenLast, MayDrop};
ghost use Rattle.solo_laws.specs.Making.{Goes, Wish, by_number};
ghost use Rattle.solo_laws.specs.Owner.{new_owner};
ghost use Rattle.solo_laws.specs.Road.{wakes};
ghost use Rattle.solo_laws.specs.Tabled.{Stands};
ghost use Rattle.two_roads.specs.Acting.{acts_by, drop_acts_by, left_of};
ghost use Rattle.two_roads.specs.LoneActs.{acts_of, cut_of, first_act};
ghost use Rattle.two_roads.specs.SameList.{SameChoices, SameChoicesToEnd, SameEnd, SameList, SameWishes, plain_behind_end, plain_of};
ghost use Rattle.two_roads.specs.Together.{TellsOf, as_heard, left_by};
ghost use Rattle.two_roads.specs.Wishing.{AreLastWishesOfSteps, AreRefusedAlike, EndRefusedSo};

/// A list of lone calls of a new machine is one of acts, each up to where user code has to answer: where these are a list of calls of a
/// new executor of one owner, both then stand where one plain scheduler does, and the machine's trace tells of the polls, drops, calls of
/// wakers and answers that the executor shows, in order. So each call is to be what the machine's step begins or answers, memory refused
/// to it as in the act, and a run that robs another to look for whom from the same word on; nothing is asked of what else they choose.
pub fn both_show_alike<F, T, X>()
    ensures { (its : ℕ → Lent) (number : X → ℕ) (limit : ℕ) (kind : MachineKind) (parties : ℕ) (ls : List Lone)
        (first : Solo F T X) (before : Who → ℕ) → AreLone (start limit kind parties) ls
        → (l : SameList its number limit kind parties (acts_of (start limit kind parties) ls) first before)
        → Stands its l.last (plain_of l) × TellsOf number (left_by (start limit kind parties) ls) (plain_of l) l.shown }
{}

/// And so it is where these lists end with the executor's drop, with what is called while its futures are dropped and behind that.
pub fn both_end_alike<F, T, X>()
    ensures { (its : ℕ → Lent) (number : X → ℕ) (limit : ℕ) (kind : MachineKind) (parties : ℕ) (ls more : List Lone)
        (drop : Lone) (first : Solo F T X) (before : Who → ℕ) → AreLone (start limit kind parties) ls → drop.call ≡ DropsExecutor
        → AreLone (left_by (start limit kind parties) ls) (drop ∷ more)
        → (l : SameList its number limit kind parties (acts_of (start limit kind parties) ls) first before)
        → let s = left_by (start limit kind parties) ls in
        (e : SameEnd l (first_act s drop) ((cut_of s drop).later ++ acts_of drop.left more))
        → IsClosed its e.last (plain_behind_end e)
        × TellsOf number (left_by drop.left more) (plain_behind_end e) (l.shown ++ e.others) }
{}

/// So it is with calls one inside another, as a poll makes them: where the calls that the machine's parties begin, and the answers of
/// polls and ends of drops that its steps have, are those of a list of calls of an executor of one owner, the machine's trace tells of
/// what that shows, wherever a party rests.
pub fn nested_calls_show_alike<F, T, X>()
    ensures { (its : ℕ → Lent) (number : X → ℕ) (limit : ℕ) (kind : MachineKind) (parties : ℕ) (acts : List Act)
        (go : ActAlike (start limit kind parties) (new limit (is_static_kind kind)) acts) (first : Solo F T X) (before : Who → ℕ)
        → (l : SameChoices its number limit kind
        (acts_by (start limit kind parties) (new limit (is_static_kind kind)) acts go) first before)
        → Stands its l.last (course wakes l.calls (new limit (is_static_kind kind)))
        × (heard_in (left_of (start limit kind parties) acts).world.trace ≡ as_heard number l.shown) }
{}

/// And so it is to the end: from the executor's drop on, once no call is in progress any more, with the calls made in the drops of its
/// futures and behind it.
pub fn nested_calls_end_alike<F, T, X>()
    ensures { (its : ℕ → Lent) (number : X → ℕ) (limit : ℕ) (kind : MachineKind) (parties : ℕ) (acts : List Act)
        (go : ActAlike (start limit kind parties) (new limit (is_static_kind kind)) acts) (a : Act) (d : Choice) (later : List Act)
        (stands : StandsDropping (standing a.left a.party)
        (does wakes_in d DropExecutor (plain_behind acts (start limit kind parties) (new limit (is_static_kind kind)) go)))
        (on : DropActAlike a.left
        (does wakes_in d DropExecutor (plain_behind acts (start limit kind parties) (new limit (is_static_kind kind)) go)) later)
        (first : Solo F T X) (before : Who → ℕ)
        → (l : SameChoicesToEnd its number limit kind (acts_by (start limit kind parties) (new limit (is_static_kind kind)) acts go
        ++ (d, DropExecutor) ∷ drop_acts_by a.left
        (does wakes_in d DropExecutor (plain_behind acts (start limit kind parties) (new limit (is_static_kind kind)) go)) later on)
        first before)
        → IsClosed its l.last (course wakes (l.calls ++ l.ends) (new limit (is_static_kind kind)))
        × (heard_in (left_of a.left later).world.trace ≡ as_heard number (l.shown ++ l.others)) }
{}

/// And so each list of such acts of a new machine tells of what a list of calls of a new executor of one owner shows, where each of these
/// calls is what the machine's step begins, or the answer of a poll or the end of a drop that the step has; where a call that asks for
/// memory is refused it as the machine's trace and world say of the act; and where a run that robs another of a future looks for whom from
/// the same word on as the machine's run in the act. Nothing else is asked: both then take as many turns in each call, their runs count as
/// many futures, and the own queues stand in the same order; so each looks first at the mark, keeps and moves as many futures, and robs
/// whom the other does.
pub fn calls_show_alike<F, T, X>()
    ensures { (its : ℕ → Lent) (number : X → ℕ) (limit : ℕ) (kind : MachineKind) (parties : ℕ) (acts : List Act)
        (first : Solo F T X) (before : Who → ℕ) → AreActs (start limit kind parties) acts
        → (l : SameList its number limit kind parties acts first before) → Stands its l.last (plain_of l)
        × (heard_in (left_of (start limit kind parties) acts).world.trace ≡ as_heard number l.shown) }
{}

/// And there is such a list of calls for each list of wishes that are the machine's acts, where the executor's owner may make each of these
/// calls where those before it have led. Where memory is refused in it as in the acts, the machine's trace tells of what it shows. What the
/// calls may queue together is no more than a queue accepts in its life: a call 15 tasks at most, and many calls none; a leak six for each
/// future that came before it; and a new run 3 * 512, for the 512 that it may give back as it goes.
pub fn wished_calls_show_alike<F, T, X>()
    ensures { (future : F) (number : X → ℕ) (limit : ℕ) (kind : MachineKind) (parties : ℕ) (acts : List Act)
        (first : Solo F T X) (before : Who → ℕ) → AreActs (start limit kind parties) acts
        → (l : SameWishes number limit kind parties acts first before)
        → (go : Goes by_number l.wishes (new_owner before) first (new limit (is_static_kind kind)))
        × (AreRefusedAlike (start limit kind parties) acts go.leads
        → heard_in (left_of (start limit kind parties) acts).world.trace ≡ as_heard number go.shown) }
{}

/// Once no call is in progress any more the machine also stands where one plain scheduler does, and with it the executor.
pub fn calls_rest_alike<F, T, X>()
    ensures { (its : ℕ → Lent) (number : X → ℕ) (limit : ℕ) (kind : MachineKind) (parties : ℕ) (acts : List Act)
        (first : Solo F T X) (before : Who → ℕ) → AreActs (start limit kind parties) acts
        → IsQuiet (left_of (start limit kind parties) acts).world.trace
        → (l : SameList its number limit kind parties acts first before)
        → Stands its l.last (plain_of l) × TellsOf number (left_of (start limit kind parties) acts) (plain_of l) l.shown }
{}

/// And so to the end: from the executor's drop on, once no call is in progress any more, with the calls made in the drops of its futures
/// and behind it.
pub fn calls_end_alike<F, T, X>()
    ensures { (its : ℕ → Lent) (number : X → ℕ) (limit : ℕ) (kind : MachineKind) (parties : ℕ) (acts : List Act)
        (a : Act) (later : List Act) (first : Solo F T X) (before : Who → ℕ) → AreActs (start limit kind parties) acts
        → IsQuiet (left_by_acts (start limit kind parties) acts).world.trace → IsAct (left_by_acts (start limit kind parties) acts) a
        → a.first ≡ Begin a.party DropsExecutor → AreDropActs a.left later
        → (l : SameList its number limit kind parties acts first before) (e : SameEnd l a later)
        → IsClosed its e.last (plain_behind_end e)
        × (heard_in (left_of a.left later).world.trace ≡ as_heard number (l.shown ++ e.others)) }
{}

/// Once no call is in progress there any more the machine also stands where the plain scheduler does, behind that drop.
pub fn calls_rest_at_the_end<F, T, X>()
    ensures { (its : ℕ → Lent) (number : X → ℕ) (limit : ℕ) (kind : MachineKind) (parties : ℕ) (acts : List Act)
        (a : Act) (later : List Act) (first : Solo F T X) (before : Who → ℕ) → AreActs (start limit kind parties) acts
        → IsQuiet (left_by_acts (start limit kind parties) acts).world.trace → IsAct (left_by_acts (start limit kind parties) acts) a
        → a.first ≡ Begin a.party DropsExecutor → AreDropActs a.left later
        → (l : SameList its number limit kind parties acts first before) (e : SameEnd l a later)
        → IsQuiet (left_of a.left later).world.trace → IsClosed its e.last (plain_behind_end e)
        × TellsOf number (left_of a.left later) (plain_behind_end e) (l.shown ++ e.others) }
{}

/// And there are such lists of calls for each list of wishes that are the machine's acts up to the executor's drop, and for each that are
/// those behind its begin, where the first may queue together no more than a queue accepts in its life, and the owner may make each of
/// them, and may drop the executor and make each of the others, wherever those before them have led. Where memory is refused in them as in
/// the acts, the machine's trace tells of what they show.
pub fn wished_calls_end_alike<F, T, X>()
    ensures { (future : F) (number : X → ℕ) (limit : ℕ) (kind : MachineKind) (parties : ℕ) (acts : List Act)
        (a : Act) (later : List Act) (ends : List (Wish T (SoloWaker X))) (x : Wish T (SoloWaker X)) (first : Solo F T X)
        (before : Who → ℕ) → AreActs (start limit kind parties) acts
        → IsQuiet (left_by_acts (start limit kind parties) acts).world.trace → IsAct (left_by_acts (start limit kind parties) acts) a
        → a.first ≡ Begin a.party DropsExecutor → AreDropActs a.left later
        → (l : SameWishes number limit kind parties acts first before) → AreLastWishesOfSteps number a.left later ends
        → ((go : Goes by_number l.wishes (new_owner before) first (new limit (is_static_kind kind)))
        → MayDrop by_number go.after (course wakes go.calls (new limit (is_static_kind kind))) x ends)
        → (go : Goes by_number l.wishes (new_owner before) first (new limit (is_static_kind kind)))
        × (last : HappenLast by_number go.after (course wakes go.calls (new limit (is_static_kind kind))) (x ∷ ends))
        × (AreRefusedAlike (start limit kind parties) acts go.leads
        → EndRefusedSo a later (course wakes go.calls (new limit (is_static_kind kind))) last.calls
        → heard_in (left_of a.left later).world.trace ≡ as_heard number (go.shown ++ last.shown)) }
{}
