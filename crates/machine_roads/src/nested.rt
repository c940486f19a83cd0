//! Calls that a party makes one inside another, in the polls and drops that its calls come to, are
//! calls of the plain scheduler.
ghost use Rattle.machine_roads.specs.DropActs.{DropActsAlike, ListsActToTheEnd};
ghost use Rattle.machine_roads.specs.Lone.{EachLoneAlike};
ghost use Rattle.machine_roads.specs.Ordering.{ActsKeepOrder};
ghost use Rattle.machine_roads.specs.Within.{ListsActAlike};

/// From a new machine on, where one party at a time begins calls, also in user code, and user code
/// ends, each such act is a call of the new plain scheduler, or the end of its innermost code. Wherever
/// the party rests both stand alike, or, in the drop of an output, of a future that nobody could wake,
/// or of the own future of a run that goes, alike but for what the call there owes. A run that searches
/// in an act chooses as both executors do, from the starting word that the act's own step names. In such
/// drops only calls of wakers and handles begin, but polls of a task in the drop of its output that nobody
/// can take; the executor isn't dropped.
pub fn lists_of_nested_calls_go_alike()
    ensures { ListsActAlike }
{}

/// From the executor's drop on, too, where a machine at rest stands where the plain scheduler does, in
/// no code: the calls that are made inside of the drops of futures in it, and of outputs in these, the
/// ends of these drops and the calls behind it are calls of the plain scheduler, and the ends of its
/// innermost code.
pub fn calls_nested_in_the_executors_drop_go_alike()
    ensures { EachLoneAlike DropActsAlike }
{}

/// So it is from a new machine on to the end: such calls, and then, where no call is in progress any
/// more, the executor's drop with the calls inside of it and behind it.
pub fn lists_of_nested_calls_go_alike_to_the_end()
    ensures { ListsActToTheEnd }
{}

/// Where both stand alike, each such act leaves the list of the runs' own queues as its call says in
/// which order runs were first polled: a run comes last with its first poll, and leaves the list as the
/// drop of its own future ends.
pub fn acts_keep_runs_in_order()
    ensures { ActsKeepOrder }
{}
