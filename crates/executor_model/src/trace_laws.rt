//! Laws of the trace of every execution, of any number of parties and any list of steps.
ghost use Rattle.executor_model.specs.AskedPolls.{IsWokenBetweenPolls};
ghost use Rattle.executor_model.specs.AwaiterKept.{AwaiterIsKept};
ghost use Rattle.executor_model.specs.DroppedAtRest.{IsDroppedAtRest};
ghost use Rattle.executor_model.specs.DroppedOnce.{DropComesOnce, IsDroppedByTheEnd};
ghost use Rattle.executor_model.specs.EarlyDrop.{EarlyDropHasCause, LastWakerIsLast};
ghost use Rattle.executor_model.specs.EveryTrace.{EveryTrace, EveryTraceBy};
ghost use Rattle.executor_model.specs.LawfulPolls.{HasLawfulPolls};
ghost use Rattle.executor_model.specs.OutputOnce.{OutputGoesOnce};

/// Whatever the parties do, each future is polled by one party at a time: its polls and its answers take
/// turns, a poll first. No poll begins once it has given its output or its drop has begun.
pub fn polls_are_lawful()
    ensures { EveryTrace HasLawfulPolls }
{}

/// Whatever the parties do, each future's output goes at most once: to one poll of its handle, or into
/// one drop, and never both.
pub fn outputs_go_once()
    ensures { EveryTrace OutputGoesOnce }
{}

/// Whatever the parties do, each future is dropped at most once.
pub fn drops_come_once()
    ensures { EveryTrace DropComesOnce }
{}

/// Whatever the parties do, a future that is dropped before it was ready was cancelled before, or the drop
/// of the executor had begun, or the executor is static, the future was detached and nobody was left who could
/// wake it.
pub fn early_drops_have_causes()
    ensures { EveryTraceBy EarlyDropHasCause }
{}

/// Whatever the parties do, nobody is left who could wake a future only where it was detached and the executor is
/// static, or the drop of the executor has begun.
pub fn last_wakers_are_of_detached_futures()
    ensures { EveryTraceBy LastWakerIsLast }
{}

/// Whatever the parties do, once the drop of the executor has ended each accepted future was dropped, and
/// was dropped once.
pub fn closing_drops_each_future_once()
    ensures { EveryTrace IsDroppedByTheEnd }
{}

/// Whatever the parties do, where somebody has dropped the executor and no call is in progress, each accepted future was
/// dropped, and was dropped once.
pub fn dropped_executors_drop_each_future_once()
    ensures { EveryTrace IsDroppedAtRest }
{}

/// Whatever the parties do, a future is woken between two of its polls.
pub fn polls_are_asked_for()
    ensures { EveryTrace IsWokenBetweenPolls }
{}

/// Whatever the parties do, no awaiter is lost: where no call is in progress, the handle is there and the
/// future was dropped, the waker of the handle's last poll was called since that poll began, if it was
/// answered that there is no output yet. Polls that were refused for want of memory are passed over.
pub fn awaiters_are_kept()
    ensures { EveryTrace AwaiterIsKept }
{}
