//! What the table of a ring keeps between any two steps, and what a seat at it knows.
ghost use Rattle.concurrent_queue.specs.BoundedRule.{BoundedRule as Rule, doing};
ghost use Rattle.concurrent_queue.specs.declared.bounded.rule.Stage.TheVariants.{Idle};
ghost use Rattle.std.specs.Prelude.{[], false};

use atomic_table::TableRule;
use queue_steps::steps::bounded::Shape;
use std::collections::LinkedList;

/// Where a call stands on the ring.
pub enum Stage {
    Idle,
    SawTail,
    SawHead,
    /// It looked at the stamp of the place at the tail or head that it saw.
    SawStamp,
    Writing,
    Reading,
    /// It took the oldest item of a full ring, and has to append.
    Forcing,
    /// It made that append.
    Swapping,
}

/// What a seat knows. It knows the count at which it stands, the place of that count, the tail or head and the stamp that it saw,
/// and the ring's mark. It knows whether a step of this or an earlier call of it found the ring closed or closed it. It also knows
/// the words that its steps in this call found, oldest first. No value of it is made.
pub struct Doing {
    pub stage: Stage,
    pub at: u64,
    pub place: u64,
    pub word: u64,
    pub stamp: u64,
    pub mark: u64,
    pub closed: bool,
    pub found: LinkedList<u64>,
}

/// The words, the stamps and the places agree, one seat at most has a place, and what a seat knows to be closed has the
/// mark. The key is the ring's shape.
pub struct BoundedRule;

impl<T> TableRule<Option<T>, Doing, Shape> for BoundedRule {
    ghost holds = { λ shape. Rule shape.capacity shape.mark };

    ghost first = { λ shape. doing Idle 0 0 0 0 shape.mark false [] };
}
