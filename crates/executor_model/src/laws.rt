//! Laws of every execution of the machine, of any number of parties and any list of steps.
ghost use Rattle.std.specs.Prelude.{ℕ};
ghost use Rattle.executor_model.specs.declared.step.Hint.{Hint};
ghost use Rattle.executor_model.specs.Emptiness.{IsEmptinessExact, IsQuietEmptinessExact};
ghost use Rattle.executor_model.specs.Entries.{FindsPlace, OwnAgrees, QueueAgrees, TableAgrees};
ghost use Rattle.executor_model.specs.HandingOn.{HandsOn, IsOnItsWay};
ghost use Rattle.executor_model.specs.InPlace.{IsInPlace};
ghost use Rattle.executor_model.specs.Limit.{IsLimitExact};
ghost use Rattle.executor_model.specs.Memory.{NeedsNoMemory};
ghost use Rattle.executor_model.specs.OutputKept.{OutputIsKept};
ghost use Rattle.executor_model.specs.OutputSettled.{OutputIsSettled};
ghost use Rattle.executor_model.specs.OwnQueues.{HasOwnRoom, IsEmptyMeanwhile, IsUsedOnce};
ghost use Rattle.executor_model.specs.OwnQueues.{IsWithinBound, ListAgrees, LockAgrees, OwnQueueHasRunner};
ghost use Rattle.executor_model.specs.Refusals.{IsWantToldOf, RefusedChangesNothing};
ghost use Rattle.executor_model.specs.Executions.{EveryMachine, EveryExecution, HasOneRunnable, IsCounted};
ghost use Rattle.executor_model.specs.SleepersAgree.{SleepersAgree};
ghost use Rattle.executor_model.specs.SleepersTold.{SleepersAreTold};
ghost use Rattle.executor_model.specs.TableKeeps.{EntryOutlastsDrop, IsTableBound};
ghost use Rattle.executor_model.specs.WalksRound.{WalksGoRound};
ghost use Rattle.executor_model.specs.World.{World};

/// Whatever the parties do, a task's count is its living wakers, and one for a Runnable, a run or a
/// closing call. Stored awaiters are wakers, and so are those in the table, which a static executor's has none of,
/// those that the drop of the executor has taken out, and those on their way.
pub fn references_are_counted()
    ensures { EveryExecution IsCounted }
{}

/// Whatever the parties do, a task has at most one Runnable, unfinished run or closing call.
pub fn one_runnable()
    ensures { EveryExecution HasOneRunnable }
{}

/// Whatever the parties do, until the drop of the executor takes the table out, an accepted future has one
/// entry there where it is undropped or the call that dropped it has still to take the entry out; no other
/// has one. A Runnable in one of the executor's queues is one of an accepted future, and its only one there, and that future
/// is undropped or was dropped by the drop of the executor: after that began, and once it has begun no other
/// call has a future to drop. So it is with a Runnable in a run's own queue, and a future has one at most in all queues.
pub fn table_and_queue_agree()
    ensures table { EveryExecution TableAgrees }
    ensures queue { EveryExecution QueueAgrees }
    ensures own { EveryExecution OwnAgrees }
{}

/// Whatever the parties do, the table has no more entries than the limit; and until the drop of the executor takes it out,
/// a future whose drop is in progress, or whose entry has still to be taken out behind that, has its entry.
pub fn the_table_is_kept()
    ensures bounded { EveryMachine IsTableBound }
    ensures entries { EveryExecution EntryOutlastsDrop }
{}

/// Whatever the parties do, an accepted future is in its place in the table, but while it is polled, until it is put back,
/// once it was taken out to be dropped, and once its drop has begun; and then it isn't there.
pub fn futures_are_in_their_places()
    ensures { EveryExecution IsInPlace }
{}

/// Whatever the parties do, whoever is about to append a Runnable to the queue of its mark finds a place for it.
pub fn no_append_is_refused_full()
    ensures { EveryExecution FindsPlace }
{}

/// Whatever the parties do, a spawn is always answered that the executor is full where as many accepted
/// futures as its limit are undropped, and only where as many are undropped or were dropped in a call that
/// hasn't ended.
pub fn the_limit_is_exact()
    ensures { EveryMachine IsLimitExact }
{}

/// Whatever the parties do, who asks whether the executor is empty is answered yes or no, and yes exactly
/// where each accepted future is dropped and no call that dropped one has still to take its entry out.
pub fn emptiness_is_exact()
    ensures { EveryMachine IsEmptinessExact }
{}

/// Where no call is in progress and the drop of the executor hasn't begun, a call that asks whether the
/// executor is empty, with no step of another party in between, is answered yes or no, and yes exactly
/// where each accepted future is dropped.
pub fn quiet_emptiness_is_exact()
    ensures { EveryMachine IsQuietEmptinessExact }
{}

/// A call takes no memory but a spawn, the making of a tick or run, a copy of a waker, and a poll of a handle, tick
/// or run, which copies the waker that it is given: nothing that it has to do from its beginning to its end asks for
/// memory or refuses it, and what it does is the same whether memory is refused or not. So no wake, cancel, detach or
/// drop is ever refused. Nor does a poll of a tick take memory that finds a future at its first search, in whichever of the
/// executor's queues, nor one of a run whose own future is ready, or that finds a future at every search.
pub fn wakes_and_drops_take_no_memory()
    ensures { (w : World) (p : ℕ) → NeedsNoMemory w p }
{}

/// A refused call changes nothing but that the trace has its beginning and its end, and that each search of a tick takes a
/// turn: none of what else a party does from the call's beginning to the refusal does. A poll of a run keeps what it did
/// before it was refused, and the making of a run that is refused gives the room back that it had.
pub fn refused_calls_change_nothing()
    ensures { (w : World) (p : ℕ) → RefusedChangesNothing w p }
{}

/// A call is answered that memory is wanted only where the hint of its step says so, or where a waker would
/// be copied of a task that has 2^40 references.
pub fn want_of_memory_is_told_of()
    ensures { (w : World) (p : ℕ) → IsWantToldOf w p }
{}

/// Where no call is in progress, an output that is there is given to the next poll of the handle: if the future
/// was ready, nobody has cancelled it, no poll was given the output and no call has taken the handle, then a
/// poll of the handle, with no step of another party in between, gives the output, whoever makes it.
pub fn outputs_are_kept()
    ensures { EveryExecution OutputIsKept }
{}

/// Where no call is in progress, the output of a future that was ready was given to a poll of its handle or dropped, and
/// once; or the next poll of the handle, whoever makes it alone, is given it. So an output that nobody can take was
/// dropped.
pub fn outputs_are_settled()
    ensures { EveryExecution OutputIsSettled }
{}

/// Each wake that marks a task as scheduled hands on exactly one Runnable where the task isn't running,
/// be it a wake by a waker, the call of an awaiter, of a sleeper's waker or of a run's own that is one, or a
/// wake by the executor's drop. Where the task is running, the end of the poll does, unless the task is closed
/// by then. A wake of a task that is marked, completed or closed hands on none. Whatever the parties do, a
/// marked task has one Runnable, run or closing call, and one that is open and neither marked nor running
/// has none.
pub fn wakes_are_handed_on()
    ensures handed { (w : World) (f p : ℕ) (h : Hint) → HandsOn w f p h }
    ensures marked { EveryExecution IsOnItsWay }
{}

/// Whatever the parties do, no two ticks or runs sleep under one number, the list counts as many as ticks and runs sleep, and
/// there are never more wakers than sleepers. The flag is true only where nobody sleeps, a sleeper is notified, or a party stands
/// between its won exchange of the flag and its hand-out. There is as much room as ticks live and runs haven't left, and as a
/// party has made for a run that isn't there yet, or has still to give back; so who lives finds a place: one that is awake finds
/// room to sleep in, and one that was notified may be listed again.
pub fn sleepers_agree()
    ensures { EveryMachine SleepersAgree }
{}

/// Whatever the parties do, where a Runnable stands in one of the executor's queues and a tick or run is among the sleepers, a
/// sleeper is notified, or a party has still to exchange the flag, to hand out or to search. Who has still to call a waker that
/// was handed out isn't needed.
pub fn sleepers_are_told()
    ensures { EveryMachine SleepersAreTold }
{}

/// Whatever the parties do, a run is in one call at most. The list of queues holds the own queue of each run that is
/// registered, once, and no other. Who has the lock of the list has one thing still to do under it, or to give it back,
/// and nobody walks while somebody writes. In a run's own queue there is a free place for each Runnable that a steal may
/// still bring, so no append there is refused; a run that has found its own queue empty has it empty until it searches
/// again or its poll ends; and what stands there belongs to a run in its poll or its drop, or to one whose last poll
/// called its own waker. It is never more than 512.
pub fn own_queues_agree()
    ensures used { EveryExecution IsUsedOnce }
    ensures listed { EveryExecution ListAgrees }
    ensures locked { EveryMachine LockAgrees }
    ensures roomy { EveryExecution HasOwnRoom }
    ensures empty { EveryExecution IsEmptyMeanwhile }
    ensures kept { EveryExecution OwnQueueHasRunner }
    ensures bounded { EveryExecution IsWithinBound }
{}

/// Whatever the parties do, a run's walk, wherever it starts, comes to the own queue of each other run in the list, as long
/// as the run finds its own queue empty behind each steal.
pub fn walks_go_round()
    ensures { EveryMachine WalksGoRound }
{}
