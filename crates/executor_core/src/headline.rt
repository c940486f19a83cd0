//! What a user relies on, from the laws that it follows from.
ghost use Rattle.executor_model.specs.Executions.{EveryMachine};
ghost use Rattle.executor_core.specs.Headline.{Headline};

use executor_laws::laws::{
    calls_end, common_futures_are_in_reach, dropped_runs_leave_common_futures, keepers_are_called,
    keepers_can_be_polled, kept_futures_are_in_reach, kept_futures_come_first, runs_reach_futures,
    some_standing_is_called,
};
use executor_model::laws::outputs_are_kept;
use executor_model::trace_laws::{
    awaiters_are_kept, dropped_executors_drop_each_future_once, drops_come_once,
    early_drops_have_causes, outputs_go_once, polls_are_lawful,
};

/// Whatever the parties do, the headline holds of the machine to which it leads. Does nothing, and takes no memory.
pub fn headline_holds()
    ensures { EveryMachine Headline }
{
    polls_are_lawful();
    early_drops_have_causes();
    drops_come_once();
    dropped_executors_drop_each_future_once();
    some_standing_is_called();
    keepers_are_called();
    common_futures_are_in_reach();
    runs_reach_futures();
    kept_futures_are_in_reach();
    kept_futures_come_first();
    keepers_can_be_polled();
    dropped_runs_leave_common_futures();
    outputs_go_once();
    outputs_are_kept();
    awaiters_are_kept();
    calls_end();
}
