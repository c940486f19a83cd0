//! The steps on a single slot.
//!
//! Its word is a sum of three marks. Whoever sets `LOCKED` has the slot alone until it clears it again. `PUSHED` says
//! that an item is there, or is on its way in. `CLOSED` is never cleared.
//!
//! A call begins with a look at the word. One that found another word than it was to exchange goes on as if it had looked.
ghost use Rattle.std.specs.Prelude.{◌≡◌, ◌%◌, true, false, nat_lt, if◌then◌else◌};
ghost use Rattle.queue_steps.specs.SingleTurns.{Look, push_turn, force_push_turn, pop_turn};
ghost use Rattle.queue_steps.specs.SingleCallTurns.{of_push, of_force_push, of_pop};

/// Somebody has the slot alone, to write or to read.
pub const LOCKED: u64 = 1;

/// An item is there, or is on its way in.
pub const PUSHED: u64 = 2;

/// The slot is closed.
pub const CLOSED: u64 = 4;

/// What a push does next.
#[derive(Clone, Copy)]
pub enum PushTurn {
    /// Load the word.
    Look,
    /// Exchange the first word for the second, which locks the slot: the append. Then write, and take `LOCKED` off.
    Exchange(u64, u64),
    /// The call has ended.
    Full,
    /// The call has ended.
    Closed,
}

/// A push waits while a pop is reading, and is refused by a closed slot before it is by a full one.
#[inline(always)]
pub fn push(word: u64) -> PushTurn
    ensures { of_push result ≡ push_turn Look word }
{
    if word >= CLOSED {
        PushTurn::Closed
    } else if word >= PUSHED {
        PushTurn::Full
    } else if word == LOCKED {
        PushTurn::Look
    } else {
        PushTurn::Exchange(word, word + LOCKED + PUSHED)
    }
}

/// What a forced push does next.
#[derive(Clone, Copy)]
pub enum ForcePushTurn {
    /// Load the word.
    Look,
    /// Exchange the first word for the second, which locks the slot: the append, or the displacement. Then swap, and take
    /// `LOCKED` off.
    Exchange(u64, u64),
    /// The call has ended.
    Closed,
}

/// A forced push locks a full slot to swap the item there, which is the displacement.
pub fn force_push(word: u64) -> ForcePushTurn
    ensures { of_force_push result ≡ force_push_turn Look word }
{
    if word >= CLOSED {
        ForcePushTurn::Closed
    } else if word % PUSHED == LOCKED {
        ForcePushTurn::Look
    } else if word >= PUSHED {
        ForcePushTurn::Exchange(word, word + LOCKED)
    } else {
        ForcePushTurn::Exchange(word, word + LOCKED + PUSHED)
    }
}

/// What a pop does next.
#[derive(Clone, Copy)]
pub enum PopTurn {
    /// Load the word.
    Look,
    /// Exchange the first word for the second, which locks the slot: the take. Then read, and take `LOCKED` off.
    Exchange(u64, u64),
    /// The call has ended.
    Empty,
    /// The call has ended.
    Closed,
}

/// A pop waits for an item on its way in.
#[inline(always)]
pub fn pop(word: u64) -> PopTurn
    ensures { of_pop result ≡ pop_turn Look word }
{
    if word % CLOSED == PUSHED {
        PopTurn::Exchange(word, word - PUSHED + LOCKED)
    } else if word % CLOSED == PUSHED + LOCKED {
        PopTurn::Look
    } else if word >= CLOSED {
        PopTurn::Closed
    } else {
        PopTurn::Empty
    }
}

/// A close answers yes where the mark was not there. It sets `CLOSED`, whatever else the word has.
pub fn close(word: u64) -> bool
    ensures { result ≡ nat_lt word 4 }
{
    word < CLOSED
}

/// Each of the other calls answers by the first word that it loads.
pub fn len(word: u64) -> u64
    ensures { result ≡ if nat_lt (word % 4) 2 then 0 else 1 }
{
    if word % CLOSED >= PUSHED { 1 } else { 0 }
}

/// Whether no item is there, or on its way in.
pub fn is_empty(word: u64) -> bool
    ensures { result ≡ nat_lt (word % 4) 2 }
{
    word % CLOSED < PUSHED
}

/// Whether an item is there, or on its way in.
pub fn is_full(word: u64) -> bool
    ensures { result ≡ if nat_lt (word % 4) 2 then false else true }
{
    word % CLOSED >= PUSHED
}

/// Whether the slot is closed.
pub fn is_closed(word: u64) -> bool
    ensures { result ≡ if nat_lt word 4 then false else true }
{
    word >= CLOSED
}
