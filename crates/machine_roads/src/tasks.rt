//! The moves of a task are changes of the plain scheduler's task.
ghost use Rattle.std.specs.Prelude.{Option};
ghost use Rattle.task_moves.specs.declared.moves.state.State.{State};
ghost use Rattle.executor_model.specs.declared.op.Waker.{Waker};
ghost use Rattle.machine_roads.specs.Moving.{CancelsAlike, CopiesAlike, DetachesAlike};
ghost use Rattle.machine_roads.specs.Moving.{IsRunAlike, ReleasesAlike, WakesAlike};

/// A wake is a wake, whether the waker goes or not: it changes the task so, and queues it where
/// that does.
pub fn a_wake_is_a_wake()
    ensures { (s : State) (awaiter : Option Waker) → WakesAlike s awaiter }
{}

/// So is a copy of a waker, where no fewer references are there than a Runnable, a run or a closing
/// call has.
pub fn a_copy_is_a_copy()
    ensures { (s : State) (awaiter : Option Waker) → CopiesAlike s awaiter }
{}

/// So is the drop of a waker that is there.
pub fn a_waker_goes_alike()
    ensures { (s : State) (awaiter : Option Waker) → ReleasesAlike s awaiter }
{}

/// So is a cancel, but that the awaiter goes in steps of its own: it is notified where the plain
/// scheduler calls it.
pub fn a_cancel_is_a_cancel()
    ensures { (s : State) (awaiter : Option Waker) → CancelsAlike s awaiter }
{}

/// And a handle that goes of a task whose output isn't there.
pub fn a_detach_is_a_detach()
    ensures { (s : State) (awaiter : Option Waker) → DetachesAlike s awaiter }
{}

/// A task's run is a run of the plain scheduler's task, from its beginning to its end: the reference
/// and the awaiter go in steps of their own.
pub fn a_run_is_a_run()
    ensures { (s : State) (awaiter : Option Waker) → IsRunAlike s awaiter }
{}
