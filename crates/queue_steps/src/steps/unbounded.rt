//! The steps on a chain of blocks. Each call is one section of one lock, so a step has both ends before it.
ghost use Rattle.std.specs.Prelude.{◌≡◌, ◌-◌, ◌^◌, ◌<◌, not, nat_le};
ghost use Rattle.queue_steps.specs.UnboundedTurns.{Append, Take, Close, push_turn, pop_turn, ends_after};
ghost use Rattle.queue_steps.specs.UnboundedCallTurns.{of_push, of_pop};

/// How many items a block has room for.
pub const BLOCK: u64 = 31;

/// A chain accepts this many items in its life. The push of one more closes it.
pub const MOST_ACCEPTED: u64 = 1 << 61;

/// How many items were appended to a chain and how many were taken, and whether it was closed.
#[derive(Clone, Copy)]
pub struct Ends {
    pub tail: u64,
    pub head: u64,
    pub closed: bool,
}

impl Ends {
    /// The ends of a new chain.
    pub const NEW: Ends = Ends {
        tail: 0,
        head: 0,
        closed: false,
    };

    /// The ends after an append.
    pub fn appended(self) -> Ends
        requires { self.tail < 2 ^ 63 }
        ensures { result ≡ ends_after self Append }
    {
        Ends {
            tail: self.tail + 1,
            ..self
        }
    }

    /// The ends after a take.
    pub fn taken(self) -> Ends
        requires { self.head < 2 ^ 63 }
        ensures { result ≡ ends_after self Take }
    {
        Ends {
            head: self.head + 1,
            ..self
        }
    }

    /// The ends after a close.
    pub fn shut(self) -> Ends
        ensures { result ≡ ends_after self Close }
    {
        Ends {
            closed: true,
            ..self
        }
    }
}

/// What the section of a push does.
#[derive(Clone, Copy)]
pub enum PushTurn {
    /// Append to the last block.
    Append,
    /// Link a new block, and append to it.
    Link,
    /// Close the chain in place of the append of one item too many.
    Spend,
    /// Change nothing, since the chain is closed.
    Closed,
}

/// A push is refused where the chain is closed. A forced push takes the same steps, since no chain is full.
pub fn push(ends: Ends) -> PushTurn
    ensures { of_push result ≡ push_turn ends }
{
    if ends.closed {
        PushTurn::Closed
    } else if ends.tail >= MOST_ACCEPTED {
        PushTurn::Spend
    } else if ends.tail % BLOCK == 0 {
        PushTurn::Link
    } else {
        PushTurn::Append
    }
}

/// What the section of a pop does.
#[derive(Clone, Copy)]
pub enum PopTurn {
    /// Take the first item of the first block.
    Take,
    /// Take the only item that is left of the first block, and unlink the block.
    Unlink,
    /// Change nothing, since the chain is empty.
    Empty,
    /// Change nothing, since the chain is empty and closed.
    Closed,
}

/// A pop takes the first item; an empty chain says whether it is closed.
pub fn pop(ends: Ends) -> PopTurn
    ensures { of_pop result ≡ pop_turn ends }
{
    if ends.head >= ends.tail {
        if ends.closed {
            PopTurn::Closed
        } else {
            PopTurn::Empty
        }
    } else if ends.head % BLOCK + 1 == BLOCK {
        PopTurn::Unlink
    } else {
        PopTurn::Take
    }
}

/// Whether a close closes the chain. It does nothing where the chain is closed.
pub fn close(ends: Ends) -> bool
    ensures { result ≡ not ends.closed }
{
    !ends.closed
}

/// How many items are in the chain.
pub fn len(ends: Ends) -> u64
    ensures { result ≡ ends.tail - ends.head }
{
    ends.tail.saturating_sub(ends.head)
}

/// Whether no item is in the chain.
pub fn is_empty(ends: Ends) -> bool
    ensures { result ≡ nat_le ends.tail ends.head }
{
    ends.tail <= ends.head
}
