//! Laws of every list of steps of any number of parties on one queue.
ghost use Rattle.queue_laws.specs.UnboundedSteps.{Step, IsClosableQueue};
ghost use Rattle.queue_laws.specs.LoneCalls.{EndsOnSlot, EndsOnChain, EndsOnRing};
ghost use Rattle.queue_steps.specs.Bounded.{IsShape};
ghost use Rattle.queue_laws.specs.BoundedSteps.{IsClosableQueue as IsClosableRing};
ghost use Rattle.queue_laws.specs.FreePlaces.{IsWithinPlaces, FreePlacesStay, SeenPlacesStay, FreePlacesAreFilled};
ghost use Rattle.queue_laws.specs.FreePlaces.{SeenPlacesAreFilled};
ghost use Rattle.queue_laws.specs.SingleSteps.{Step as WordStep, IsClosableQueue as IsClosableSlot};
ghost use Rattle.queue_laws.specs.Traces.{on_slot, on_ring, on_chain, length_on_slot, length_on_ring, length_on_chain};
ghost use Rattle.queue_laws.specs.Order.{LeaveInOrder};
ghost use Rattle.queue_laws.specs.Closing.{StaysClosed, GivesNoMore, ClosesOnce};
ghost use Rattle.queue_laws.specs.Told.{AnswerWhatTheyDid};
ghost use Rattle.queue_laws.specs.Shown.{ShownOnSlot, ShownOnRing, ShownOnChain, ShownBeside};
ghost use Rattle.std.specs.Prelude.{ℕ, List};

/// Whatever parties call on a chain, and however their steps come between one another, what they see is a run of the
/// closable queue: each call acts at a moment of its own, and answers what the queue answers there.
pub fn a_chain_is_a_closable_queue<T>()
    ensures { (steps : List (Step T)) → IsClosableQueue steps }
{}

/// The same of a single slot, step by step: a step loads or exchanges its word, or is done in the slot by the party
/// that has locked it. What a call answers without a change is what the queue answers at some moment of that call.
pub fn a_slot_is_a_closable_queue<T>()
    ensures { (steps : List (WordStep T)) → IsClosableSlot steps }
{}

/// The same of a ring of any shape: a step loads or exchanges the tail, the head or a stamp, or is done in a place by the
/// party whose own it is. A forced push on a full ring takes the first item at one step and appends its own at a later
/// one, and a close in between is kept. No word wraps, and no place is read empty.
pub fn a_ring_is_a_closable_queue<T>()
    ensures { (n m : ℕ) → IsShape n m → (steps : List (WordStep T)) → IsClosableRing n m steps }
{}

/// A call on a chain that begins while no other is in progress, and goes on alone, ends within 64 steps.
pub fn a_lone_call_on_a_chain_ends<T>()
    ensures { (steps : List (Step T)) → EndsOnChain steps }
{}

/// The same of a single slot.
pub fn a_lone_call_on_a_slot_ends<T>()
    ensures { (steps : List (WordStep T)) → EndsOnSlot steps }
{}

/// The same of a ring of any shape.
pub fn a_lone_call_on_a_ring_ends<T>()
    ensures { (n m : ℕ) → IsShape n m → (steps : List (WordStep T)) → EndsOnRing n m steps }
{}

/// Where one party alone appends to a ring, the free places that it saw stay free until its next append, whatever others
/// pop and whoever closes the ring. Of those that were free at some moment, and of those that a length told it of, all
/// are free later but as many as it has appended itself since. A ring never has more items than places.
pub fn free_places_stay_free<T>()
    ensures within { (n m : ℕ) → IsShape n m → (steps : List (WordStep T)) → IsWithinPlaces n m steps }
    ensures state { (n m : ℕ) → IsShape n m → (steps more : List (WordStep T)) → FreePlacesStay n m steps more }
    ensures look { (n m : ℕ) → IsShape n m → (steps : List (WordStep T)) → SeenPlacesStay n m steps }
{}

/// So who alone appends to a ring finds a place for each of as many items as it saw free places: a push of it is refused
/// `Full` only once it has appended as many since, and none of the first so many pushes that it begins after its look is.
pub fn free_places_are_not_refused<T>()
    ensures state { (n m : ℕ) → IsShape n m → (steps more : List (WordStep T)) → FreePlacesAreFilled n m steps more }
    ensures look { (n m : ℕ) → IsShape n m → (steps : List (WordStep T)) → SeenPlacesAreFilled n m steps }
{}

/// Items leave slot, ring and chain in the order in which they were appended. Those that left are the first of those that
/// were appended, and the others are as many as are still there. An item that a forced push displaces leaves too, to that
/// push: it is the first one, and the item of the push is appended after it has left.
pub fn items_leave_in_order<T>()
    ensures slot { (steps : List (WordStep T)) → LeaveInOrder (on_slot steps) (length_on_slot steps) }
    ensures ring { (n m : ℕ) → IsShape n m → (steps : List (WordStep T)) → LeaveInOrder (on_ring n m steps) (length_on_ring n m steps) }
    ensures chain { (steps : List (Step T)) → LeaveInOrder (on_chain steps) (length_on_chain steps) }
{}

/// Once closed always closed: after a close, or an answer that the queue is closed, no later call finds it open. No item is
/// accepted, no pop is told `Empty`, no close answers true, and `is_closed` doesn't say no. A call is later that begins
/// after the other has ended. Of calls that began before, only a forced push that found the queue full may still append.
pub fn a_closed_queue_stays_closed<T>()
    ensures slot { (steps : List (WordStep T)) → StaysClosed (on_slot steps) }
    ensures ring { (n m : ℕ) → IsShape n m → (steps : List (WordStep T)) → StaysClosed (on_ring n m steps) }
    ensures chain { (steps : List (Step T)) → StaysClosed (on_chain steps) }
{}

/// After a pop that answered `Closed` no item leaves, also to calls that began before, and no later pop gives an item.
pub fn nothing_leaves_after_closed<T>()
    ensures slot { (steps : List (WordStep T)) → GivesNoMore (on_slot steps) }
    ensures ring { (n m : ℕ) → IsShape n m → (steps : List (WordStep T)) → GivesNoMore (on_ring n m steps) }
    ensures chain { (steps : List (Step T)) → GivesNoMore (on_chain steps) }
{}

/// At most one close answers true: the first that acts. None does that begins after another close has ended.
pub fn at_most_one_close_is_true<T>()
    ensures slot { (steps : List (WordStep T)) → ClosesOnce (on_slot steps) }
    ensures ring { (n m : ℕ) → IsShape n m → (steps : List (WordStep T)) → ClosesOnce (on_ring n m steps) }
    ensures chain { (steps : List (Step T)) → ClosesOnce (on_chain steps) }
{}

/// Each call acts at one moment at most, between its beginning and its end, and answers what it did then. A call that did
/// not act took in no item, gave none and closed nothing. So the items of these moments are those that callers are told of.
pub fn calls_answer_what_they_did<T>()
    ensures slot { (steps : List (WordStep T)) → AnswerWhatTheyDid (on_slot steps) }
    ensures ring { (n m : ℕ) → IsShape n m → (steps : List (WordStep T)) → AnswerWhatTheyDid (on_ring n m steps) }
    ensures chain { (steps : List (Step T)) → AnswerWhatTheyDid (on_chain steps) }
{}

/// What these laws speak of happens. One party alone pushes, displaces, closes and pops until `Closed`, on a slot, a ring of
/// two places and a chain. And a forced push that found that ring full before a close appends its item after it.
pub fn what_these_laws_speak_of_happens<T>()
    ensures slot { (x y z : T) → ShownOnSlot x y z }
    ensures ring { (x y z : T) → ShownOnRing x y z }
    ensures chain { (x y z : T) → ShownOnChain x y z }
    ensures beside { (x y z : T) → ShownBeside x y z }
{}
