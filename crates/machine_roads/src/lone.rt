//! Lone calls of the machine, made where no call is in progress, are calls of the plain scheduler.
ghost use Rattle.executor_model.specs.Executions.{EveryMachine};
ghost use Rattle.machine_roads.specs.Behind.{LoneCallIsBehind, LoneCancelsBehind, LoneCopiesBehind, LoneDetachLosesBehind};
ghost use Rattle.machine_roads.specs.Behind.{LoneDetachesBehind, LoneGoesWithOutputBehind, LoneHandleGoesBehind};
ghost use Rattle.machine_roads.specs.Behind.{LoneHandlePollsBehind, LoneHandleWaitsBehind, LoneUsesBehind};
ghost use Rattle.machine_roads.specs.Behind.{LoneWakerGoesBehind, LoneWakesBehind};
ghost use Rattle.machine_roads.specs.Closing.{LoneDropRests};
ghost use Rattle.machine_roads.specs.Course.{ListsGoAlike};
ghost use Rattle.machine_roads.specs.Lone.{EachLoneAlike, LoneCallIsAlone, LoneCancels, LoneCopies};
ghost use Rattle.machine_roads.specs.Lone.{LoneEmpty, LoneLeaks, LoneRunEnds, LoneRunGoes, LoneRunGoesOn, LoneRunIsMade};
ghost use Rattle.machine_roads.specs.Lone.{LoneRunTakes, LoneSpawns, LoneUses, LoneWakerGoes};
ghost use Rattle.machine_roads.specs.Lone.{LoneDetachLoses, LoneDropEnds, LoneGoesWithOutput};
ghost use Rattle.machine_roads.specs.Lone.{LoneDetaches, LoneHandleGoes, LoneHandlePolls};
ghost use Rattle.machine_roads.specs.Lone.{LoneHandleWaits, LoneTickGoes, LoneTickIsMade};
ghost use Rattle.machine_roads.specs.Lone.{LoneTickIsPolled, LoneTickLies, LoneTicksEnd, LoneTries};
ghost use Rattle.machine_roads.specs.Lone.{LoneTriesEnd, LoneWakes};

/// What a call leaves of the world, however it is told, a lone call leaves of each machine at rest,
/// as long as the executor's drop hasn't begun: so it is here and below.
pub fn lone_calls_are_alone()
    ensures { EveryMachine LoneCallIsAlone }
{}

/// Where a machine stands where the plain scheduler does, a lone wake leaves both alike, by a kept
/// waker that goes or stays. Here and below the plain scheduler tells who lay down last.
pub fn lone_wakes_are_wakes()
    ensures uses { EachLoneAlike LoneUses }
    ensures wakes { EachLoneAlike LoneWakes }
{}

/// So does the lone drop of a kept waker.
pub fn lone_wakers_go_alike()
    ensures { EachLoneAlike LoneWakerGoes }
{}

/// So does a lone copy of a kept waker, also one that is refused.
pub fn lone_copies_are_copies()
    ensures { EachLoneAlike LoneCopies }
{}

/// So does a lone cancel, with the call of who awaited the future.
pub fn lone_cancels_are_cancels()
    ensures { EachLoneAlike LoneCancels }
{}

/// So does a lone detach of a future whose output isn't there, and the lone drop of its handle.
pub fn lone_handles_go_alike()
    ensures detaches { EachLoneAlike LoneDetaches }
    ensures drops { EachLoneAlike LoneHandleGoes }
{}

/// And of one whose output is there, with the end of the output's drop.
pub fn lone_handles_go_with_outputs()
    ensures detaches { EachLoneAlike LoneDetachLoses }
    ensures drops { EachLoneAlike LoneGoesWithOutput }
{}

/// So does a lone poll of a handle, whether it finds an answer or has to wait, also where the copy of
/// its waker is refused.
pub fn lone_polls_of_handles_are_polls()
    ensures finds { EachLoneAlike LoneHandlePolls }
    ensures waits { EachLoneAlike LoneHandleWaits }
{}

/// So does a lone spawn, also one that is refused.
pub fn lone_spawns_are_spawns()
    ensures { EachLoneAlike LoneSpawns }
{}

/// A lone try, and a lone poll of a tick, rest first where those of the plain scheduler do: answered,
/// or in the poll or the drop of a future that they took, in whatever world `roads` goes on from.
pub fn lone_takes_rest_alike()
    ensures tries { EachLoneAlike LoneTries }
    ensures ticks { EachLoneAlike LoneTickIsPolled }
{}

/// And with the ends of all the user code that it comes to a lone try is a try.
pub fn lone_tries_are_tries()
    ensures { EachLoneAlike LoneTriesEnd }
{}

/// And so is a lone poll of a tick a poll of a tick, from its beginning to its end.
pub fn lone_polls_of_ticks_are_polls()
    ensures { EachLoneAlike LoneTicksEnd }
{}

/// So does the lone making of a tick, also one that is refused, and its drop.
pub fn lone_ticks_are_made_and_go()
    ensures makes { EachLoneAlike LoneTickIsMade }
    ensures drops { EachLoneAlike LoneTickGoes }
{}

/// So does a lone poll of a tick where nothing is due that no run keeps: it lies, or lies again, or is
/// refused memory in one way or the other.
pub fn lone_ticks_lie_down()
    ensures { EachLoneAlike LoneTickLies }
{}

/// So does the lone making of a run, also one that is refused.
pub fn lone_runs_are_made()
    ensures { EachLoneAlike LoneRunIsMade }
{}

/// So is a lone poll of a run that is over, or whose own future is ready in it, with the ends of that
/// future's poll and drop.
pub fn lone_runs_end()
    ensures { EachLoneAlike LoneRunEnds }
{}

/// And where its own future gives no output, and some future is due, it rests first behind that where
/// the plain scheduler's does: in the poll or the drop of the future that it took.
pub fn lone_runs_take()
    ensures { EachLoneAlike LoneRunTakes }
{}

/// With the ends of all the code that it comes to a lone poll of a run that has taken fewer than 200 is
/// one, whatever it finds: behind its own future's poll without an output it takes until it has taken
/// 200 and lets others go first, or until nothing is due; there it lies down, lies again with another
/// waker, or is refused memory.
pub fn lone_runs_go_on()
    ensures { EachLoneAlike LoneRunGoesOn }
{}

/// With the end of its own future's drop, if that isn't over, a lone drop of a run is one: those that
/// it keeps are appended, in order, each telling, and it gets up where it lies.
pub fn lone_runs_go()
    ensures { EachLoneAlike LoneRunGoes }
{}

/// So does a lone leak, where the plain scheduler stands in no code.
pub fn lone_leaks_are_leaks()
    ensures { EachLoneAlike LoneLeaks }
{}

/// With the ends of all drops of futures that it comes to, a lone drop of the executor is that of the
/// plain scheduler, where that stands in no code: from there on its queues are closed, and both stand
/// alike.
pub fn lone_drops_are_drops()
    ensures { EachLoneAlike LoneDropEnds }
{}

/// It comes first to the drop of the first future, if one is left, where `roads` goes on: with calls of
/// wakers and handles made inside of that, and so with each drop of a future to the end.
pub fn lone_drops_rest_alike()
    ensures { EachLoneAlike LoneDropRests }
{}

/// Behind that no task waits for a wake; and where none does, wakes by kept wakers, these wakers'
/// copies and their drops leave both alike, whether the executor was dropped or not: here and below
/// still no task waits then.
pub fn lone_wakers_go_on_behind()
    ensures uses { EachLoneAlike LoneUsesBehind }
    ensures wakes { EachLoneAlike LoneWakesBehind }
    ensures copies { EachLoneAlike LoneCopiesBehind }
    ensures drops { EachLoneAlike LoneWakerGoesBehind }
{}

/// So do cancels there, and detaches and drops of handles of futures whose output isn't there.
pub fn lone_handles_go_on_behind()
    ensures cancels { EachLoneAlike LoneCancelsBehind }
    ensures detaches { EachLoneAlike LoneDetachesBehind }
    ensures drops { EachLoneAlike LoneHandleGoesBehind }
{}

/// And of those whose output is there, with the end of the output's drop.
pub fn lone_handles_go_with_outputs_behind()
    ensures detaches { EachLoneAlike LoneDetachLosesBehind }
    ensures drops { EachLoneAlike LoneGoesWithOutputBehind }
{}

/// So do polls of handles there: an output that is kept is given, a cancelled future's handle says so,
/// and who has to wait leaves its waker, also where its copy is refused.
pub fn lone_polls_of_handles_go_on_behind()
    ensures finds { EachLoneAlike LoneHandlePollsBehind }
    ensures waits { EachLoneAlike LoneHandleWaitsBehind }
{}

/// What a call of a waker or a handle leaves there of the world, however it is told, a lone call leaves
/// of each machine.
pub fn lone_calls_are_alone_behind()
    ensures { EachLoneAlike LoneCallIsBehind }
{}

/// And so it is asked alone whether the executor is empty.
pub fn lone_questions_are_answered()
    ensures { EachLoneAlike LoneEmpty }
{}

/// Lists of such calls of a new machine, one after the other, are lists of calls of the new plain
/// scheduler, which looks first at the mark that the turn names and tells who lay down last: all calls,
/// and behind the executor's drop, if it comes to that, whatever calls can be made there.
pub fn lists_of_lone_calls_go_alike()
    ensures { ListsGoAlike }
{}
