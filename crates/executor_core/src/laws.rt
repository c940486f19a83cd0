//! All laws of every machine, in one record.
ghost use Rattle.std.specs.Prelude.{ℕ, List};
ghost use Rattle.executor_model.specs.declared.kind.Kind.{Kind};
ghost use Rattle.executor_model.specs.declared.step.Step.{Step};
ghost use Rattle.executor_model.specs.Steps.{Machine};
ghost use Rattle.executor_model.specs.AskedPolls.{IsWokenBetweenPolls};
ghost use Rattle.executor_model.specs.AwaiterKept.{AwaiterIsKept};
ghost use Rattle.executor_model.specs.CopiesMean.{CopiesAreCounted};
ghost use Rattle.executor_model.specs.DroppedAtRest.{IsDroppedAtRest};
ghost use Rattle.executor_model.specs.DroppedOnce.{DropComesOnce, IsDroppedByTheEnd};
ghost use Rattle.executor_model.specs.EarlyDrop.{EarlyDropHasCause, LastWakerIsLast};
ghost use Rattle.executor_model.specs.EveryTrace.{EveryTrace, EveryTraceBy};
ghost use Rattle.executor_model.specs.ClosingOrder.{DropsInOrder};
ghost use Rattle.executor_model.specs.ClosingWakes.{WakesInOrder};
ghost use Rattle.executor_model.specs.CallsMean.{CallsDoWhatTheySay};
ghost use Rattle.executor_model.specs.FinishedRuns.{FinishedAtOnce};
ghost use Rattle.executor_model.specs.GivenWakers.{PollsKeepTheirWakers};
ghost use Rattle.executor_model.specs.InHands.{IsInHands};
ghost use Rattle.executor_model.specs.LastTold.{ClosingSaysWhy};
ghost use Rattle.executor_model.specs.LawfulPolls.{HasLawfulPolls};
ghost use Rattle.executor_model.specs.OutputOnce.{OutputGoesOnce};
ghost use Rattle.executor_model.specs.Executions.{EveryExecution, EveryMachine};
ghost use Rattle.executor_model.specs.LeakWakes.{LeakWakes};
ghost use Rattle.executor_model.specs.OutsideWakers.{OutsideWakersAreCalled};
ghost use Rattle.executor_model.specs.OwnFutures.{ActsOnItsFuture};
ghost use Rattle.executor_model.specs.SpawnsMean.{SpawnsAreLimited};
ghost use Rattle.executor_model.specs.SpawnWants.{SpawnsWantAsTold};
ghost use Rattle.executor_model.specs.WakersMean.{WakersWakeTheirOwn};
ghost use Rattle.executor_laws.specs.Called.{KeeperIsCalled, SomeStandingIsCalled};
ghost use Rattle.executor_laws.specs.CallsFit.{ActsFit, AnswersFit};
ghost use Rattle.executor_laws.specs.CallsFollow.{ActsFollow, AnswersFollow, CallsBegin};
ghost use Rattle.executor_laws.specs.HandleAnswers.{CancelledMeansOver};
ghost use Rattle.executor_laws.specs.KeptFirst.{TakesKeptFirst};
ghost use Rattle.executor_laws.specs.Looks.{TakesByItsTurn};
ghost use Rattle.executor_laws.specs.Reach.{IsInReach, IsReachedInOrder};
ghost use Rattle.executor_laws.specs.RunOrder.{TakesInOrder};
ghost use Rattle.executor_laws.specs.RunPolls.{KeepersCanBePolled, RunsCanBePolled};
ghost use Rattle.executor_laws.specs.RunReach.{IsKeptReached, IsReachedByRuns, LeavesCommon};
ghost use Rattle.executor_laws.specs.RunSearch.{FindsDue};
ghost use Rattle.executor_laws.specs.RunTurns.{IsCommonReached};
ghost use Rattle.executor_laws.specs.Makings.{MadeIsMade};
ghost use Rattle.executor_laws.specs.NoAnswers.{NoMeansEmpty};
ghost use Rattle.executor_laws.specs.Numbered.{RequestsAreNumbered};
ghost use Rattle.executor_laws.specs.HandlePolls.{DroppedIsSettled, HandlesLookFirst};
ghost use Rattle.executor_laws.specs.PendingPolls.{RunsLookFirst, TicksLookFirst};
ghost use Rattle.executor_laws.specs.TakesTold.{TakesAreTold};
ghost use Rattle.executor_laws.specs.EndedRuns.{EndedIsFinished};
ghost use Rattle.executor_laws.specs.RunEnds.{EndsByItsOwn, EndsOnlyByItsOwn};
ghost use Rattle.executor_core.specs.AllLaws.{AllLaws};

use crate::headline::headline_holds;
use call_laws::all::calls_keep_all_laws;
use executor_laws::following::{
    calls_begin_as_asked, calls_follow_their_steps, calls_see_what_fits,
};
use executor_laws::laws::{
    arrival_order_needs_fewer_ticks, calls_at_rest_are_exact, calls_end, cancelled_means_over,
    common_futures_are_in_reach, common_futures_are_in_reach_of_runs,
    dropped_runs_leave_common_futures, due_futures_stand_with_their_keepers,
    ended_runs_are_finished, futures_are_marked_as_spawned,
    futures_are_polled_where_they_are_taken_up, futures_are_queued_by_their_marks,
    handles_wait_for_what_can_come, keepers_are_called, keepers_can_be_polled,
    kept_futures_are_in_reach, kept_futures_come_first, lone_calls_are_exact, lone_calls_end,
    lone_ticks_take_by_their_turn, no_comes_at_once, no_means_that_nothing_was_queued,
    nothing_is_ready_where_none_was_found, one_turn_of_eight_is_plain, queueings_are_counted,
    requests_are_numbered, runs_are_ready_at_their_end, runs_can_be_polled,
    runs_end_by_their_own_futures, runs_find_due_futures, runs_poll_few_futures,
    runs_reach_futures, runs_take_few_futures, runs_take_futures_in_order, some_standing_is_called,
    ticks_are_exact, traces_continue, what_is_made_is_new,
};
use executor_model::call_laws::{
    calls_do_what_they_say, closings_say_why, copies_are_counted, leaks_wake_each_future,
    open_futures_are_in_hands, outside_wakers_are_called, polls_keep_their_wakers,
    runs_are_finished_at_once, spawns_are_limited, spawns_want_memory_as_told,
    the_closing_drop_keeps_the_order, the_closing_drop_wakes_in_order, wakers_wake_their_own,
    wakes_and_copies_are_of_their_futures,
};
use executor_model::laws::{
    emptiness_is_exact, futures_are_in_their_places, no_append_is_refused_full, one_runnable,
    outputs_are_kept, outputs_are_settled, own_queues_agree, quiet_emptiness_is_exact,
    references_are_counted, refused_calls_change_nothing, sleepers_agree, sleepers_are_told,
    table_and_queue_agree, the_limit_is_exact, the_table_is_kept, wakes_and_drops_take_no_memory,
    wakes_are_handed_on, walks_go_round, want_of_memory_is_told_of,
};
use executor_model::trace_laws::{
    awaiters_are_kept, closing_drops_each_future_once, dropped_executors_drop_each_future_once,
    drops_come_once, early_drops_have_causes, last_wakers_are_of_detached_futures, outputs_go_once,
    polls_are_asked_for, polls_are_lawful,
};

/// Whatever the parties do, all laws hold of the machine to which it leads. Does nothing, and takes no memory.
pub fn all_laws()
    ensures { EveryMachine AllLaws }
{
    headline_holds();
    laws_of_traces();
    references_are_counted();
    one_runnable();
    outputs_are_kept();
    outputs_are_settled();
    wakes_are_handed_on();
    sleepers_agree();
    sleepers_are_told();
    own_queues_agree();
    walks_go_round();
    table_and_queue_agree();
    the_table_is_kept();
    futures_are_in_their_places();
    no_append_is_refused_full();
    the_limit_is_exact();
    emptiness_is_exact();
    quiet_emptiness_is_exact();
    wakes_and_drops_take_no_memory();
    refused_calls_change_nothing();
    want_of_memory_is_told_of();
    laws_of_calls();
    calls_keep_all_laws();
    laws_of_steps();
    laws_of_answers();
    laws_of_reach();
    calls_end();
    lone_calls_end();
    ticks_are_exact();
    runs_are_ready_at_their_end();
    due_futures_stand_with_their_keepers();
    runs_poll_few_futures();
    runs_take_few_futures();
    lone_calls_are_exact();
    queueings_are_counted();
    one_turn_of_eight_is_plain();
    futures_are_marked_as_spawned();
    futures_are_queued_by_their_marks();
    traces_continue();
    calls_at_rest_are_exact();
    no_comes_at_once();
}

/// Those of the trace alone, and of a future.
fn laws_of_traces()
    ensures polls { EveryTrace HasLawfulPolls }
    ensures asked { EveryTrace IsWokenBetweenPolls }
    ensures outputs { EveryTrace OutputGoesOnce }
    ensures drops { EveryTrace DropComesOnce }
    ensures causes { EveryTraceBy EarlyDropHasCause }
    ensures last_wakers { EveryTraceBy LastWakerIsLast }
    ensures by_the_end { EveryTrace IsDroppedByTheEnd }
    ensures at_rest { EveryTrace IsDroppedAtRest }
    ensures awaiters { EveryTrace AwaiterIsKept }
    ensures standing { EveryTrace SomeStandingIsCalled }
    ensures keepers { EveryTrace KeeperIsCalled }
{
    polls_are_lawful();
    polls_are_asked_for();
    outputs_go_once();
    drops_come_once();
    early_drops_have_causes();
    last_wakers_are_of_detached_futures();
    closing_drops_each_future_once();
    dropped_executors_drop_each_future_once();
    awaiters_are_kept();
    some_standing_is_called();
    keepers_are_called();
}

/// Those of what each call does.
fn laws_of_calls()
    ensures calls { EveryTrace CallsDoWhatTheySay }
    ensures spawns { EveryMachine SpawnsAreLimited }
    ensures spawn_wants { EveryMachine SpawnsWantAsTold }
    ensures wakers { EveryMachine WakersWakeTheirOwn }
    ensures own { EveryMachine ActsOnItsFuture }
    ensures copies { EveryMachine CopiesAreCounted }
    ensures outside { EveryMachine OutsideWakersAreCalled }
    ensures given { EveryMachine PollsKeepTheirWakers }
    ensures why { EveryMachine ClosingSaysWhy }
    ensures in_hands { EveryExecution IsInHands }
    ensures finished { EveryMachine FinishedAtOnce }
    ensures order { EveryMachine DropsInOrder }
    ensures wakes_order { EveryMachine WakesInOrder }
    ensures leaks { EveryExecution LeakWakes }
{
    calls_do_what_they_say();
    spawns_are_limited();
    spawns_want_memory_as_told();
    wakers_wake_their_own();
    wakes_and_copies_are_of_their_futures();
    copies_are_counted();
    outside_wakers_are_called();
    polls_keep_their_wakers();
    closings_say_why();
    open_futures_are_in_hands();
    runs_are_finished_at_once();
    the_closing_drop_keeps_the_order();
    the_closing_drop_wakes_in_order();
    leaks_wake_each_future();
}

/// Those of what an answer means.
fn laws_of_answers()
    ensures cancelled { EveryTrace CancelledMeansOver }
    ensures made { EveryMachine MadeIsMade }
    ensures ends { EveryExecution EndsByItsOwn }
    ensures ends_only { (limit : ℕ) (kind : Kind) (parties : ℕ) (steps : List Step) (r : ℕ) →
        EndsOnlyByItsOwn limit kind parties steps r }
    ensures finished { (s : Machine) → EndedIsFinished s }
    ensures no { EveryMachine NoMeansEmpty }
    ensures ticks_look { EveryMachine TicksLookFirst }
    ensures runs_look { EveryMachine RunsLookFirst }
    ensures handles_look { EveryMachine HandlesLookFirst }
    ensures settled_at_rest { EveryMachine DroppedIsSettled }
    ensures takes_told { (s : Machine) → TakesAreTold s }
    ensures numbered { EveryMachine RequestsAreNumbered }
{
    cancelled_means_over();
    what_is_made_is_new();
    runs_end_by_their_own_futures();
    ended_runs_are_finished();
    no_means_that_nothing_was_queued();
    nothing_is_ready_where_none_was_found();
    handles_wait_for_what_can_come();
    futures_are_polled_where_they_are_taken_up();
    requests_are_numbered();
}

/// Those of what calls that are made alone reach.
fn laws_of_reach()
    ensures ticks { EveryMachine IsInReach }
    ensures in_order { EveryMachine IsReachedInOrder }
    ensures by_turn { EveryMachine TakesByItsTurn }
    ensures runs { EveryMachine IsReachedByRuns }
    ensures common { EveryMachine IsCommonReached }
    ensures due { EveryMachine FindsDue }
    ensures kept { EveryMachine IsKeptReached }
    ensures kept_first { EveryMachine TakesKeptFirst }
    ensures queueing_order { EveryMachine TakesInOrder }
    ensures keepers_polled { EveryMachine KeepersCanBePolled }
    ensures runs_polled { EveryMachine RunsCanBePolled }
    ensures left { EveryMachine LeavesCommon }
{
    common_futures_are_in_reach();
    arrival_order_needs_fewer_ticks();
    lone_ticks_take_by_their_turn();
    runs_reach_futures();
    common_futures_are_in_reach_of_runs();
    runs_find_due_futures();
    kept_futures_are_in_reach();
    kept_futures_come_first();
    runs_take_futures_in_order();
    keepers_can_be_polled();
    runs_can_be_polled();
    dropped_runs_leave_common_futures();
}

/// Those of single steps, whatever the world is.
fn laws_of_steps()
    ensures begins { CallsBegin }
    ensures acts { ActsFollow }
    ensures answers { AnswersFollow }
    ensures acts_fit { ActsFit }
    ensures answers_fit { AnswersFit }
{
    calls_begin_as_asked();
    calls_follow_their_steps();
    calls_see_what_fits();
}
