//! The steps on a ring.
//!
//! A tail or a head is the index of a place plus a lap for each time round. The tail also carries the ring's mark once
//! the ring is closed. A place's stamp is the tail that may fill it, or one more than the tail that filled it.
ghost use Rattle.std.specs.Prelude.{◌≡◌, ℕ, ◌+◌, ◌-◌, ◌*◌, ◌%◌, ◌<◌, ◌^◌, ◌==◌, not};
ghost use Rattle.queue_steps.specs.Bounded.{IsShape, IsPlaceWord, count_at, next_at, advanced_at, is_marked};
ghost use Rattle.queue_steps.specs.BoundedTurns.{Tail, Head, Stamp, HeadFor, TailFor, Spend, appends_at, push_turn, force_push_turn};
ghost use Rattle.queue_steps.specs.BoundedTurns.{pop_turn, looks_empty, looks_full};
ghost use Rattle.queue_steps.specs.BoundedCallTurns.{of_push, of_force_push, of_pop};

/// A ring accepts this many items in its life. The push of one more closes it.
pub const MOST_ACCEPTED: u64 = 1 << 61;

/// How many places a ring has, and the mark above their indexes: the least power of two that exceeds their number.
#[derive(Clone, Copy)]
pub struct Shape {
    pub capacity: u64,
    pub mark: u64,
    /// The mark is two to this power.
    pub bits: u64,
    ghost sound: { IsShape capacity mark },
    ghost power: { mark ≡ 2 ^ bits },
}

impl Shape {
    /// The shape of a ring of so many places, of which no ring can have 2^60.
    pub fn new(capacity: u64) -> Shape
        requires some { 0 < capacity }
        requires few { capacity < 2 ^ 60 }
        ensures capacity { result.capacity ≡ capacity }
        ensures power { (k : ℕ) × (result.mark ≡ 2 ^ k) }
    {
        let mut mark = 1;
        let mut bits = 0;
        while mark <= capacity {
            mark *= 2;
            bits += 1;
        }
        Shape {
            capacity,
            mark,
            bits,
        }
    }

    /// What one time round adds to a word.
    pub fn lap(self) -> u64
        ensures { result ≡ 2 * self.mark }
    {
        2 * self.mark
    }

    #[tactic(auto, using(crate::proofs::BoundedMasks::index_masks))]
    /// The index of the place at a tail or a head.
    pub fn index(self, word: u64) -> u64
        ensures { result ≡ word % self.mark }
    {
        word & (self.mark - 1)
    }

    #[tactic(auto, using(crate::proofs::BoundedMasks::laps_shift, crate::proofs::BoundedMasks::count_fits), unfolding(crate::specs::Bounded::count_at))]
    /// How many items were appended before this tail, or taken before this head.
    pub fn count(self, word: u64) -> u64
        ensures { result ≡ count_at self.capacity self.mark word }
    {
        (word >> (self.bits + 1)) * self.capacity + self.index(word)
    }

    #[tactic(auto, using(crate::proofs::BoundedWords::place_fits), unfolding(crate::specs::Bounded::next_at))]
    /// The tail or head of the next place, or of the next lap.
    pub fn next(self, word: u64) -> u64
        requires { IsPlaceWord self.capacity self.mark word }
        ensures { result ≡ next_at self.capacity self.mark word }
    {
        let index = self.index(word);
        if index + 1 < self.capacity {
            word + 1
        } else {
            word - index + self.lap()
        }
    }

    /// The tail that the append of a displacement leaves: the next one after this tail, with the mark of the tail that
    /// was found, since a close may have come between the displacement and its append.
    pub fn advance(self, tail: u64, found: u64) -> u64
        requires place { IsPlaceWord self.capacity self.mark tail }
        requires room { next_at self.capacity self.mark tail + self.mark < 2 ^ 64 }
        ensures { result ≡ advanced_at self.capacity self.mark tail found }
    {
        let next = self.next(tail);
        if self.is_marked(found) {
            next + self.mark
        } else {
            next
        }
    }

    /// Whether a tail carries the mark.
    pub fn is_marked(self, tail: u64) -> bool
        ensures { result ≡ is_marked self.mark tail }
    {
        tail & self.mark != 0
    }

    // Whether the second word is so much above the first.
    fn is_above(self, low: u64, by: u64, high: u64) -> bool
        ensures { result ≡ (low + by == high) }
    {
        low <= high && high - low == by
    }
}

/// What a push, plain or forced, does next.
#[derive(Clone, Copy)]
pub enum PushTurn {
    /// Load the tail.
    Tail,
    /// Load the stamp of the place at this tail.
    Stamp(u64),
    /// Load the head, since the place at this tail still has the item of a lap before.
    HeadFor(u64),
    /// Exchange this tail for the next one: the append. Then write to the place at this tail, and set its stamp to one more
    /// than this tail.
    Append(u64),
    /// Exchange this tail for itself with the mark: the push of one item too many closes the ring.
    Spend(u64),
    /// The call has ended.
    Closed,
}

/// A push, plain or forced, that found this tail. A closed ring refuses it before a full one does. No call meets a tail
/// that names no place.
#[inline(always)]
pub fn push_at_tail(shape: Shape, tail: u64) -> PushTurn
    ensures plain { of_push result ≡ push_turn shape.capacity shape.mark Tail tail }
    ensures forced { of_push result ≡ force_push_turn shape.capacity shape.mark Tail tail }
{
    if shape.is_marked(tail) {
        PushTurn::Closed
    } else if shape.index(tail) < shape.capacity {
        PushTurn::Stamp(tail)
    } else {
        PushTurn::Tail
    }
}

// The place at this tail is free: the append, but that one item too many closes the ring.
#[inline(always)]
fn append_at(shape: Shape, tail: u64) -> PushTurn
    ensures { of_push result ≡ appends_at shape.capacity shape.mark tail }
{
    if shape.count(tail) < MOST_ACCEPTED {
        PushTurn::Append(tail)
    } else {
        PushTurn::Spend(tail)
    }
}

/// The stamp of the place at this tail: free, or it still has the item of a lap before, or it is being read.
#[inline(always)]
pub fn push_at_stamp(shape: Shape, tail: u64, stamp: u64) -> PushTurn
    ensures plain { of_push result ≡ push_turn shape.capacity shape.mark (Stamp tail) stamp }
    ensures forced { of_push result ≡ force_push_turn shape.capacity shape.mark (Stamp tail) stamp }
{
    if stamp == tail {
        append_at(shape, tail)
    } else if shape.is_above(stamp, shape.lap() - 1, tail) {
        PushTurn::HeadFor(tail)
    } else {
        PushTurn::Tail
    }
}

/// Whether the head is a lap before this tail, at which the place still had an item: then a push ends, and else it looks at
/// the tail again.
pub fn is_full_at_head(shape: Shape, tail: u64, head: u64) -> bool
    ensures { result ≡ (head + 2 * shape.mark == tail) }
{
    shape.is_above(head, shape.lap(), tail)
}

/// The tail that was found where a push was to close the ring: the same, or it goes on from there.
pub fn push_at_spend(shape: Shape, tail: u64, found: u64) -> PushTurn
    ensures plain { of_push result ≡ push_turn shape.capacity shape.mark (Spend tail) found }
    ensures forced { of_push result ≡ force_push_turn shape.capacity shape.mark (Spend tail) found }
{
    if found == tail {
        PushTurn::Closed
    } else {
        push_at_tail(shape, found)
    }
}

/// What a forced push does next that has looked at the head.
#[derive(Clone, Copy)]
pub enum ForcePushTurn {
    /// Go on as a push does.
    Push(PushTurn),
    /// Exchange the head of a lap before this tail for the next one: the displacement, a take that owes an append. Then move
    /// the tail on from this one, and keep its mark. Then swap in the place at this tail, and set its stamp as a push does.
    Displace(u64),
}

/// A forced push takes the oldest item of a full ring, but that one item too many closes the ring and displaces nothing.
pub fn force_push_at_head(shape: Shape, tail: u64, head: u64) -> ForcePushTurn
    ensures { of_force_push result ≡ force_push_turn shape.capacity shape.mark (HeadFor tail) head }
{
    if !shape.is_above(head, shape.lap(), tail) {
        ForcePushTurn::Push(PushTurn::Tail)
    } else if shape.count(tail) < MOST_ACCEPTED {
        ForcePushTurn::Displace(tail)
    } else {
        ForcePushTurn::Push(PushTurn::Spend(tail))
    }
}

/// What a pop does next.
#[derive(Clone, Copy)]
pub enum PopTurn {
    /// Load the head.
    Head,
    /// Load the stamp of the place at this head.
    Stamp(u64),
    /// Load the tail, since nothing is in the place at this head.
    TailFor(u64),
    /// Exchange this head for the next one: the take. Then read the place at this head, and set its stamp to a lap more than
    /// this head.
    Take(u64),
    /// The call has ended.
    Empty,
    /// The call has ended.
    Closed,
}

/// A pop that found this head. No call meets a head that names no place.
#[inline(always)]
pub fn pop_at_head(shape: Shape, head: u64) -> PopTurn
    ensures { of_pop result ≡ pop_turn shape.capacity shape.mark Head head }
{
    if shape.index(head) < shape.capacity {
        PopTurn::Stamp(head)
    } else {
        PopTurn::Head
    }
}

/// The stamp of the place at this head: filled, or free, or it is being written or read. A pop waits for an item on its way
/// in.
#[inline(always)]
pub fn pop_at_stamp(shape: Shape, head: u64, stamp: u64) -> PopTurn
    ensures { of_pop result ≡ pop_turn shape.capacity shape.mark (Stamp head) stamp }
{
    if shape.is_above(head, 1, stamp) {
        if shape.count(head) < MOST_ACCEPTED {
            PopTurn::Take(head)
        } else {
            PopTurn::Head
        }
    } else if stamp == head {
        PopTurn::TailFor(head)
    } else {
        PopTurn::Head
    }
}

/// The tail, where nothing was in the place at this head: the ring is empty, or an item is on its way in.
pub fn pop_at_tail(shape: Shape, head: u64, tail: u64) -> PopTurn
    ensures { of_pop result ≡ pop_turn shape.capacity shape.mark (TailFor head) tail }
{
    if tail == head {
        PopTurn::Empty
    } else if shape.is_above(head, shape.mark, tail) {
        PopTurn::Closed
    } else {
        PopTurn::Head
    }
}

/// A close answers yes where the mark was not there. It sets the mark, whatever the tail is.
pub fn close(shape: Shape, tail: u64) -> bool
    ensures { result ≡ not (is_marked shape.mark tail) }
{
    !shape.is_marked(tail)
}

#[tactic(auto, using(crate::proofs::BoundedMasks::laps_shift, crate::proofs::BoundedMasks::counts_in_a_lap), unfolding(crate::specs::Bounded::count_at))]
/// The length, where the tail was the same before and after the look at this head. Within a lap that is a difference of
/// indexes, without a product.
#[inline(always)]
pub fn len(shape: Shape, tail: u64, head: u64) -> u64
    ensures { result ≡ count_at shape.capacity shape.mark tail - count_at shape.capacity shape.mark head }
{
    let lap = shape.bits + 1;
    if tail >> lap == head >> lap {
        shape.index(tail).saturating_sub(shape.index(head))
    } else {
        shape.count(tail).saturating_sub(shape.count(head))
    }
}

/// Whether the ring was empty when this tail was loaded, after this head.
pub fn is_empty(shape: Shape, head: u64, tail: u64) -> bool
    ensures { result ≡ looks_empty shape.capacity shape.mark head tail }
{
    tail == head || shape.is_above(head, shape.mark, tail)
}

/// Whether the ring was full when this head was loaded, after this tail.
pub fn is_full(shape: Shape, tail: u64, head: u64) -> bool
    ensures { result ≡ looks_full shape.capacity shape.mark tail head }
{
    let lap = shape.lap();
    shape.is_above(head, lap, tail) || shape.is_above(head, lap + shape.mark, tail)
}

/// Whether a tail is that of a closed ring.
pub fn is_closed(shape: Shape, tail: u64) -> bool
    ensures { result ≡ is_marked shape.mark tail }
{
    shape.is_marked(tail)
}
