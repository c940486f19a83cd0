//! Why a party can't go on, or end its user code.
ghost use Rattle.executor_model.specs.Executions.{EveryMachine};
ghost use Rattle.call_laws.specs.Steps.{AnswersAreTaken, GoesAreTaken};

/// Whatever the parties do, a party that is told to go on does the next thing of its call, but where there is no such party, where it
/// does nothing, where it is in user code, which must answer first, or where that thing wants the lock of the list of queues and
/// another party has it: to write, or, for one who wants to write, to walk. In this order it is refused so. Walks don't keep each
/// other out.
pub fn whoever_has_something_to_do_goes_on()
    ensures { EveryMachine GoesAreTaken }
{}

/// Whatever the parties do, an answer that the user code in which a party stands may give is taken: a poll's that it is pending or
/// ready, and of all other code that it has ended. Else it is refused: there is no such party, it does nothing, or it isn't in user
/// code that may end so.
pub fn answers_of_user_code_are_taken()
    ensures { EveryMachine AnswersAreTaken }
{}
