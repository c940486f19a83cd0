//! Laws of what each call does, of any number of parties and any list of steps.
ghost use Rattle.executor_model.specs.CallsMean.{CallsDoWhatTheySay};
ghost use Rattle.executor_model.specs.ClosingOrder.{DropsInOrder};
ghost use Rattle.executor_model.specs.ClosingWakes.{WakesInOrder};
ghost use Rattle.executor_model.specs.CopiesMean.{CopiesAreCounted};
ghost use Rattle.executor_model.specs.EveryTrace.{EveryTrace};
ghost use Rattle.executor_model.specs.Executions.{EveryExecution, EveryMachine};
ghost use Rattle.executor_model.specs.LeakWakes.{LeakWakes};
ghost use Rattle.executor_model.specs.FinishedRuns.{FinishedAtOnce};
ghost use Rattle.executor_model.specs.GivenWakers.{PollsKeepTheirWakers};
ghost use Rattle.executor_model.specs.InHands.{IsInHands};
ghost use Rattle.executor_model.specs.LastTold.{ClosingSaysWhy};
ghost use Rattle.executor_model.specs.OutsideWakers.{OutsideWakersAreCalled};
ghost use Rattle.executor_model.specs.OwnFutures.{ActsOnItsFuture};
ghost use Rattle.executor_model.specs.SpawnsMean.{SpawnsAreLimited};
ghost use Rattle.executor_model.specs.SpawnWants.{SpawnsWantAsTold};
ghost use Rattle.executor_model.specs.WakersMean.{WakersWakeTheirOwn};

/// Whatever the parties do, each call that has ended was answered with one of its own answers, and did what its name
/// says, itself and not by a call inside of it. A spawn that was made took a future in. A tick that was tried and
/// answered yes, and a poll of a tick that was answered ready, began the poll or the drop of a future; so a poll that
/// finds none is answered that nothing is ready, or that memory is wanted. A wake woke a future, unless some future,
/// whichever, was over. A poll of a handle that wasn't refused was told of, and gave the output where it was answered
/// ready. A cancel, and the drop of a handle, cancelled the future, unless that was over; and a detach, and the drop of
/// a handle, detached it. The drop of the executor began, and came to its end. A future is over that was ready or
/// cancelled before the call ended, or, as that closes each task, any once the drop of the executor had begun.
pub fn calls_do_what_they_say()
    ensures { EveryTrace CallsDoWhatTheySay }
{}

/// Whatever the parties do, each answer that the executor is full is given where as many futures as the limit, or more,
/// have been accepted and are undropped, or were dropped by a call that hasn't ended. And never are more futures
/// undropped than the limit: so a spawn that asks for a place where as many are undropped is not made.
pub fn spawns_are_limited()
    ensures { EveryMachine SpawnsAreLimited }
{}

/// Whatever the parties do, a spawn is answered that memory is wanted only by a step that is told so, and only where fewer
/// futures than the limit are undropped. One that asks for a place, where fewer are undropped or were dropped in a call
/// that hasn't ended, is answered so at once where memory is refused, and takes its future in where it isn't.
pub fn spawns_want_memory_as_told()
    ensures { EveryMachine SpawnsWantAsTold }
{}

/// Whatever the parties do, a kept waker that is one of a future stays so until it is used up, and each wake by it that
/// has ended woke that future, unless that was over before the wake ended.
pub fn wakers_wake_their_own()
    ensures { EveryMachine WakersWakeTheirOwn }
{}

/// Whatever the parties do, kept wakers come and go one by one. A step that answers a copy of a waker that it was made adds
/// one kept waker, behind the others, and one reference of its task, which had fewer than 2^40; one that answers it that
/// memory is wanted adds none, and is told so, or a task has 2^40 references. A call that uses a waker up takes that out as it
/// begins, and leaves the others. No other step changes which wakers are kept. A reference that is let go is one less,
/// unless it is the last of a task without handle.
pub fn copies_are_counted()
    ensures { EveryMachine CopiesAreCounted }
{}

/// Whatever the parties do, a step that tells that a waker from outside of the executor is called leads its party into the
/// user code of that waker, before anything else.
pub fn outside_wakers_are_called()
    ensures { EveryMachine OutsideWakersAreCalled }
{}

/// Whatever the parties do, a poll of a handle, of a tick or of a run keeps the waker that it was given, which is the waker
/// of the poll in which its party stood as the call began, or the one from outside that the call names: what the machine
/// keeps of that poll has no other waker, and no other is called for it.
pub fn polls_keep_their_wakers()
    ensures { EveryMachine PollsKeepTheirWakers }
{}

/// Whatever the parties do, a step that tells that a call is answered that a run is finished is the beginning of a poll of that
/// run, which had ended before.
pub fn runs_are_finished_at_once()
    ensures { EveryMachine FinishedAtOnce }
{}

/// Whatever the parties do, a step that closes the open task of a future, whether it lets the last waker go, detaches the
/// future, or ends a poll that leaves none, says why itself: it tells that nobody is left who could wake the future, or that
/// it was cancelled, unless the drop of the executor has begun, which closes each task.
pub fn closings_say_why()
    ensures { EveryMachine ClosingSaysWhy }
{}

/// Whatever the parties do, somebody can ask for each accepted future whose task is open: its handle is there, or a waker of
/// it lives, or a Runnable, an unfinished run or a closing call of it is there. So a step that lets the last waker of a
/// detached future go, detaches one that has none, or ends a poll that leaves none, closes the task, and no open future is
/// forgotten.
pub fn open_futures_are_in_hands()
    ensures { EveryExecution IsInHands }
{}

/// Whatever the parties do, a wake, by the waker of the poll in which its party stands or by a kept one, wakes the future of
/// that waker, in its party's first step behind its beginning, unless that future was over before; and a copy of such a waker
/// is kept as a waker of that future, in that step, where memory isn't wanted.
pub fn wakes_and_copies_are_of_their_futures()
    ensures { EveryMachine ActsOnItsFuture }
{}

/// Whatever the parties do, futures are numbered in the order in which they are accepted, and those that are dropped since
/// the drop of the executor began are dropped in that order.
pub fn the_closing_drop_keeps_the_order()
    ensures { EveryMachine DropsInOrder }
{}

/// Whatever the parties do, the futures that the drop of the executor has dropped and has still to wake, or that a leak has
/// still to wake, stand in the order of acceptance, and those that the drop has still to drop behind them. The first of those
/// stays the first until a step wakes it and takes it out; it isn't woken where its task was completed or closed.
pub fn the_closing_drop_wakes_in_order()
    ensures { EveryMachine WakesInOrder }
{}

/// Whatever the parties do, once a leak of the executor has ended, each future that was accepted before it began and isn't
/// dropped was woken by it.
pub fn leaks_wake_each_future()
    ensures { EveryExecution LeakWakes }
{}
