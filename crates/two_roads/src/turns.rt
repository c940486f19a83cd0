//! How many turns of its two queues the machine takes in an act.
ghost use Rattle.two_roads.specs.Turns.{ActsTakeTurns};

/// From a new machine on each act, by one party at a time, takes as many turns of the machine's two queues as the call that the act is,
/// by what the machine's trace and world show to be refused: one in a try; in a tick's poll one where a future that no run keeps is due,
/// the tick lies with a waker or memory is refused to it at once, and else two; in the search of a run none where that keeps one itself,
/// one where it takes another, and else as many as a tick; and in any other act none.
pub fn acts_take_turns()
    ensures { ActsTakeTurns }
{}
