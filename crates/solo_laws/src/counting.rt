//! What is counted in each call: turns of the executor's two queues, and the futures that runs take.
ghost use Rattle.solo_laws.specs.Counting.{AllCountTo64, CallsCount, CallsTakeTurns};
ghost use Rattle.solo_laws.specs.Ordering.{CallsOrder};

/// Wherever a list of calls has led both, a call takes as many turns of the executor's two queues as is said of the plain scheduler's
/// state: a try takes one, a tick's poll one or two, a run that searches none where it takes what it keeps itself, one where it takes
/// another, and one or two where it finds none; and any other call none.
pub fn calls_take_turns<F, T, X>()
    ensures { CallsTakeTurns F T X }
{}

/// A run counts each future that it takes, and begins anew with every 64th; nothing else is counted.
pub fn runs_count_what_they_take<F, T, X>()
    ensures counts { CallsCount F T X }
    ensures below { AllCountTo64 F T X }
{}

/// The own queues at which others look stand in the order in which their runs were first polled, without those that went.
pub fn runs_stand_in_order<F, T, X>()
    ensures { CallsOrder F T X }
{}
