//! What the table of a single slot keeps between any two steps, and what a seat at it knows.
ghost use Rattle.concurrent_queue.specs.SingleRule.{SingleRule as Rule, doing};
ghost use Rattle.concurrent_queue.specs.declared.single.rule.Stage.TheVariants.{Idle};
ghost use Rattle.std.specs.Prelude.{[], false};

use atomic_table::TableRule;
use std::collections::LinkedList;

/// Where a call stands in the slot.
pub enum Stage {
    Idle,
    Writing,
    Reading,
}

/// What a seat knows. It knows whether it has the slot, and whether a step of this or an earlier call of it found the slot closed
/// or closed it. It also knows the words that its steps in this call found, oldest first. No value of it is made.
pub struct Doing {
    pub stage: Stage,
    pub closed: bool,
    pub found: LinkedList<u64>,
}

/// The word and the slot agree, one seat at most has the slot, and what a seat knows to be closed has the mark.
pub struct SingleRule;

impl<T> TableRule<Option<T>, Doing, ()> for SingleRule {
    ghost holds = { λ _. Rule };

    ghost first = { λ _. doing Idle false [] };
}
