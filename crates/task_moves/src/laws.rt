//! What holds of every list of moves of one task, whoever makes them and in whatever order.
ghost use Rattle.std.specs.Prelude.{◌<◌, ◌^◌};
ghost use Rattle.task_moves.specs.Moves.{HoldsReference};
ghost use Rattle.task_moves.specs.Calls.{IsAbstractTask};
ghost use Rattle.task_moves.specs.Halves.{Halves};
ghost use Rattle.task_moves.specs.Laws.{EveryCourse, EveryPossible, HasOneRunnable, IsCounted, IsSmall};
ghost use Rattle.task_moves.specs.Laws.{HasWakesOwed, HasPollsAskedFor, IsNeverPolledAfterEnd};
ghost use Rattle.task_moves.specs.Laws.{GivesOutputOnce};
ghost use Rattle.task_moves.specs.ManyTasks.{AreAbstractTasks};

/// There is never more than one Runnable, unfinished run or closing call.
pub fn one_runnable()
    ensures { EveryCourse HasOneRunnable }
{}

/// The count is the number of the living wakers, and one for a Runnable, an unfinished run or a
/// closing call.
pub fn references_are_counted()
    ensures counted { EveryCourse IsCounted }
    ensures small { EveryCourse IsSmall }
{}

/// Each wake that set the mark on a task that wasn't running owes one Runnable. Where the task was
/// running, the end of the poll owes it, unless the task is closed by then.
pub fn wakes_are_owed()
    ensures { EveryCourse HasWakesOwed }
{}

/// The future is polled at most once more than the open task was woken.
pub fn polls_are_asked_for()
    ensures { EveryCourse HasPollsAskedFor }
{}

/// The future is never polled after it has given its output, or after its drop began.
pub fn never_polled_after_end()
    ensures { EveryCourse IsNeverPolledAfterEnd }
{}

/// An output is given or dropped at most once, and it was when the handle is gone.
pub fn output_goes_once()
    ensures { EveryCourse GivesOutputOnce }
{}

/// Whoever has what it takes to make a move may make it: the count has room for one more, and a
/// reference that is given up is there.
pub fn moves_are_possible()
    ensures few { EveryPossible (λ kind state. state.references < 2 ^ 63) }
    ensures held { EveryPossible HoldsReference }
{}

/// What a run does in one move takes a task with one owner two calls, around the drop of the
/// future. They make it up.
pub fn halves_make_the_whole<F, T, A>()
    ensures { Halves F T A }
{}

/// A task with one owner is the abstract task for every list of its calls, and its owner is told
/// exactly what the abstract task's schedule function is.
pub fn local_task_is_the_abstract_task<F, T, A>()
    ensures { IsAbstractTask F T A }
{}

/// So is each of many tasks for every list of their calls, some of them made inside of others: by a poll,
/// or by the schedule functions and awaiters that a call leads to, which may wake other tasks or this one.
pub fn local_tasks_are_abstract_tasks<F, T, A>()
    ensures { AreAbstractTasks F T A }
{}
