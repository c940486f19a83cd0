//! What stands beside futures and makes steps of its own.

/// What stands beside the futures: what they share, and a clock, a peer or a poller, whose step is one more call of an order.
pub trait Beside {
    /// Whether it may make a step now. It is asked before each call.
    fn may_step(&self) -> bool;

    /// Makes a step.
    fn step(&mut self);
}

/// Nothing stands beside.
#[derive(Drop)]
pub struct Alone;

impl Beside for Alone {
    fn may_step(&self) -> bool {
        false
    }

    fn step(&mut self) {}
}
