//! Whole calls that a party of the machine makes alone, where it does nothing or stands in user
//! code, are calls of the plain scheduler. Where an operation speaks of a waker, an awaiter or a place
//! in a queue, that is there (`HasAll`).
ghost use Rattle.std.specs.Prelude.{ℕ};
ghost use Rattle.executor_model.specs.Steps.{is_static_kind, start};
ghost use Rattle.executor_model.specs.declared.kind.Kind.{Kind};
ghost use Rattle.plain_scheduler.specs.Calls.{new};
ghost use Rattle.machine_roads.specs.Alike.{CancelsAlike, CopiesAlike, DetachesAlike, EachAlike};
ghost use Rattle.machine_roads.specs.Alike.{EmptyAlike, HandleGoesAlike, HandlePollsAlike, KeepsAlike, LeaksAlike};
ghost use Rattle.machine_roads.specs.Alike.{RunIsMadeAlike};
ghost use Rattle.machine_roads.specs.Alike.{SpawnsAlike, UsesAlike, WakesAlike, WakesItselfAlike};
ghost use Rattle.machine_roads.specs.Alike.{WakerGoesAlike};
ghost use Rattle.machine_roads.specs.Closing.{CallsInDrop, DropGoesOn, LosesInDrop, LossEndsInDrop};
ghost use Rattle.machine_roads.specs.Dropped.{DropsAlikeInTake, LosesAlikeInTake};
ghost use Rattle.machine_roads.specs.Forgotten.{ForgetsAlikeInTake, ForgottenGoesAlike};
ghost use Rattle.machine_roads.specs.GoingOn.{RunDropsAlike, RunForgetsAlike, RunLosesAlike};
ghost use Rattle.machine_roads.specs.GoingOn.{RunPendsAlike};
ghost use Rattle.machine_roads.specs.InForgotten.{CallsInForgotten, InAnyForgotten, LosesInForgotten, LossEndsInForgotten};
ghost use Rattle.machine_roads.specs.InLoss.{CallsInLoss, InAnyLoss, LosesInLoss, LossEndsInLoss};
ghost use Rattle.machine_roads.specs.Losing.{DetachesToLose, GoesToLose, LosesAlike};
ghost use Rattle.machine_roads.specs.Road.{Follows};
ghost use Rattle.machine_roads.specs.Searching.{RunLiesAlike, RunTakesAlike};
ghost use Rattle.machine_roads.specs.Ticking.{TickGoesAlike, TickIsMadeAlike, TickIsPolledAlike};
ghost use Rattle.machine_roads.specs.Stopped.{GivesAlikeInTake, PendsAlikeInTake, TriesAlike};
ghost use Rattle.machine_roads.specs.Untaken.{CallsBeside, InAnyUntaken, LosesBeside, LossEndsBeside};

/// A new machine stands where the new plain scheduler does.
pub fn both_begin_alike()
    ensures { (limit : ℕ) (kind : Kind) (parties : ℕ) →
        Follows (start limit kind parties).world (new limit (is_static_kind kind)) }
{}

/// Where both stand alike, a wake leaves them alike: by a kept waker that goes, by one that stays,
/// and by that of the own poll. Here and below the plain scheduler tells who lay down last.
pub fn a_wake_is_a_wake()
    ensures uses { EachAlike UsesAlike }
    ensures wakes { EachAlike WakesAlike }
    ensures itself { EachAlike WakesItselfAlike }
{}

/// So does the drop of a kept waker.
pub fn a_waker_goes_alike()
    ensures { EachAlike WakerGoesAlike }
{}

/// So does a copy of a kept waker, and of that of the own poll, also one that is refused.
pub fn a_copy_is_a_copy()
    ensures copies { EachAlike CopiesAlike }
    ensures keeps { EachAlike KeepsAlike }
{}

/// So does a cancel, with the call of who awaited the future.
pub fn a_cancel_is_a_cancel()
    ensures { EachAlike CancelsAlike }
{}

/// So does a detach of a future whose output isn't there.
pub fn a_detach_is_a_detach()
    ensures { EachAlike DetachesAlike }
{}

/// So does the drop of such a handle, which cancels and detaches.
pub fn a_handle_goes_alike()
    ensures { EachAlike HandleGoesAlike }
{}

/// Of a future whose output is there a detach, and the drop of its handle, come to the drop of the
/// output, where both stand alike but for the handle.
pub fn a_handle_comes_to_lose()
    ensures detaches { EachAlike DetachesToLose }
    ensures drops { EachAlike GoesToLose }
{}

/// From the end of that drop on the call leaves both alike.
pub fn a_loss_ends_alike()
    ensures { LosesAlike }
{}

/// So does a poll of a handle, with a copy of its waker where it has to wait, also one that is
/// refused.
pub fn a_handle_is_polled_alike()
    ensures { EachAlike HandlePollsAlike }
{}

/// So does a spawn, also one that is refused.
pub fn a_spawn_is_a_spawn()
    ensures { EachAlike SpawnsAlike }
{}

/// A try of a tick leaves both alike where it is answered, and where it has come to the poll or the
/// drop of a future that it took.
pub fn a_try_is_a_try()
    ensures { EachAlike TriesAlike }
{}

/// And so does the end of such a poll, where it gives no output and the future can still be reached: in
/// a try or a tick's poll, and in a run's with its 200th, which then calls its own waker and lets others
/// go first.
pub fn an_end_without_output_ends_alike()
    ensures { EachAlike PendsAlikeInTake }
{}

/// Where nobody could wake the future or ask for it any more it comes to the drop of the future, where
/// both stand alike but for who awaits it.
pub fn an_end_that_forgets_ends_alike()
    ensures { EachAlike ForgetsAlikeInTake }
{}

/// From the end of that drop on the call leaves both alike.
pub fn a_forgotten_future_goes_alike()
    ensures { ForgottenGoesAlike }
{}

/// And so does its end with an output.
pub fn an_end_with_output_ends_alike()
    ensures { EachAlike GivesAlikeInTake }
{}

/// And so does the end of the future's drop: the call is answered, or has come to the drop of an
/// output that nobody can take, where both stand alike but for the run's reference and who awaits the
/// task.
pub fn an_end_of_a_drop_ends_alike()
    ensures { EachAlike DropsAlikeInTake }
{}

/// From the end of that drop on the call leaves both alike.
pub fn a_loss_in_a_take_ends_alike()
    ensures { LosesAlikeInTake }
{}

/// A tick is made alike, also where that is refused.
pub fn a_tick_is_made_alike()
    ensures { EachAlike TickIsMadeAlike }
{}

/// A tick that is polled has come to the poll or the drop of a future that it took, or is answered:
/// it lies down, or lies again by another waker, or is refused memory for one. It takes one turn of the
/// executor's two queues where it finds one there or lies with a waker, and else one in each search.
pub fn a_tick_is_polled_alike()
    ensures { EachAlike TickIsPolledAlike }
{}

/// A tick that is dropped leaves both alike, whether it lay, was called or neither.
pub fn a_tick_goes_alike()
    ensures { EachAlike TickGoesAlike }
{}

/// So is a run, also where that is refused.
pub fn a_run_is_made_alike()
    ensures { EachAlike RunIsMadeAlike }
{}

/// A poll of a run whose own future gave no output comes, where some future is due, to the poll or the
/// drop of the one that it takes, where both stand alike: the first of its own queue, or of the
/// executor's as the turn names them, or of another run's; with what it steals beside. It chooses as both
/// executors do, from the starting word that its hint names; it has counted one more, and a turn was taken
/// unless it kept that one itself. Behind that it searches again, or calls its own waker where that was the
/// 200th.
pub fn a_run_takes_alike()
    ensures { EachAlike RunTakesAlike }
{}

/// And where nothing is due it is answered, and both stand alike: it lies down, lies again with another
/// waker, or is refused memory, before or once it lies. It takes one turn of the executor's two queues
/// where it lies with a waker or is refused at once, and else two; runs have counted as many as before.
pub fn a_run_lies_alike()
    ensures { EachAlike RunLiesAlike }
{}

/// Behind a future that it took, if that wasn't the 200th, it goes on so: once the poll of that future
/// has ended without an output, or its drop, or the drop of an output that nobody can take, it comes to
/// the next one or is answered, or stands in one of these drops.
pub fn a_run_goes_on_alike()
    ensures pends { EachAlike RunPendsAlike }
    ensures drops { EachAlike RunDropsAlike }
    ensures loses { RunLosesAlike }
    ensures forgets { RunForgetsAlike }
{}

/// A leak leaves both alike, of an executor that isn't static.
pub fn a_leak_is_a_leak()
    ensures { EachAlike LeaksAlike }
{}

/// And both say alike whether they are empty.
pub fn both_say_whether_empty()
    ensures { EachAlike EmptyAlike }
{}

/// In the drop of a future in the executor's drop, too, calls of wakers and handles are calls of the
/// plain scheduler, which stands in that drop: a call ends, or comes to the drop of an output that goes
/// with its handle, and ends from the end of that on.
pub fn calls_in_the_executors_drop_are_calls()
    ensures calls { CallsInDrop }
    ensures comes { LosesInDrop }
    ensures ends { LossEndsInDrop }
{}

/// From the end of the future's drop on, the executor's drop comes to that of the next one, or to its
/// end, behind which no task waits for a wake.
pub fn the_executors_drop_goes_on_alike()
    ensures { DropGoesOn }
{}

/// In the drop of an output that goes with its handle, too, and in those of such outputs one inside
/// another, calls of wakers and of other handles are calls of the plain scheduler: both stand as before,
/// alike but for the handles that go there; a call ends, or comes to the drop of another output, and
/// ends from the end of that on.
pub fn calls_in_an_outputs_drop_are_calls()
    ensures calls { InAnyLoss CallsInLoss }
    ensures comes { InAnyLoss LosesInLoss }
    ensures ends { InAnyLoss LossEndsInLoss }
{}

/// In the drop of an output that nobody can take, too, where the machine's task still has its run's
/// reference and who awaits it, and in drops of outputs inside of that: calls of wakers and of handles,
/// but polls of that task's, leave both alike but for these. What the calls speak of is there without
/// the run's reference, too.
pub fn calls_beside_a_lost_output_are_calls()
    ensures calls { InAnyUntaken CallsBeside }
    ensures comes { InAnyUntaken LosesBeside }
    ensures ends { InAnyUntaken LossEndsBeside }
{}

/// In the drop of a future that nobody could wake or ask for, too, where the machine's task still has who
/// awaits it, and in drops of outputs inside of that: calls of wakers and handles of other tasks leave both
/// alike but for this.
pub fn calls_in_a_forgotten_futures_drop_are_calls()
    ensures calls { InAnyForgotten CallsInForgotten }
    ensures comes { InAnyForgotten LosesInForgotten }
    ensures ends { InAnyForgotten LossEndsInForgotten }
{}
