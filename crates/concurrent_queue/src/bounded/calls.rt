//! The other calls on a ring: the close, and what a look at its words finds.
ghost use Rattle.std.specs.Prelude.{◌≡◌, ◌≤◌, true, false, IfSome, MatchResult};
ghost use Rattle.concurrent_queue.specs.Answered.{says};
ghost use Rattle.concurrent_queue.specs.BoundedSeat.{IsFreeSeatOf, StaysFree, close_at, len_at, is_empty_at, is_full_at, is_closed_at};
ghost use Rattle.concurrent_queue.specs.BoundedStands.{LenStands};
ghost use Rattle.queue_steps.specs.Reply.{Length};
ghost use Rattle.queue_steps.specs.BoundedTurns.{End};

use crate::bounded::Bounded;
use crate::bounded::moves::{self, Pass};
use queue_steps::steps::bounded::{self as steps, Shape};
use std::sync::Wait;

/// Closes the ring, and answers whether this call did so.
pub fn close<T>(ring: &Bounded<T>, pass: &mut Pass<T>) -> bool
    requires { IsFreeSeatOf ring.now.board.shared ring.now.shape pass.old }
    ensures same { StaysFree pass.old pass.new }
    ensures answers { close_at ring.now.shape pass.new.me.0.found ≡ End (says result) }
    ensures closed { pass.new.me.0.closed ≡ true }
    ensures once { pass.old.me.0.closed ≡ true → result ≡ false }
{
    let found = moves::close(&ring.board.shared, pass, ring.shape.mark);
    steps::close(ring.shape, found)
}

// Looks at the head behind a tail that was seen, and at the tail again: the length, or else the tail that it found.
#[inline(always)]
fn len_behind<T>(ring: &Bounded<T>, pass: &mut Pass<T>, tail: u64) -> Result<usize, u64>
    requires seat { IsFreeSeatOf ring.now.board.shared ring.now.shape pass.old }
    requires stands { LenStands ring.now.shape tail pass.old.me.0 }
    ensures same { StaysFree pass.old pass.new }
    ensures told { MatchResult result (λ len. (len_at ring.now.shape pass.new.me.0.found ≡ End (Length len)) × (len ≤ ring.now.shape.capacity))
        (λ found. LenStands ring.now.shape found pass.new.me.0) }
{
    let head = moves::look_behind(&ring.board.shared, pass);
    let found = moves::tail(&ring.board.shared, pass);
    if found == tail {
        Ok(steps::len(ring.shape, tail, head) as usize)
    } else {
        Err(found)
    }
}

/// How many items are in the ring, read while the tail stayed the same.
#[inline(always)]
pub fn len<T, R: Wait>(rt: &R, ring: &Bounded<T>, pass: &mut Pass<T>) -> usize
    requires { IsFreeSeatOf ring.now.board.shared ring.now.shape pass.old }
    ensures same { StaysFree pass.old pass.new }
    ensures answers { len_at ring.now.shape pass.new.me.0.found ≡ End (Length result) }
    ensures within { result ≤ ring.now.shape.capacity }
{
    let mut tail = moves::begin_tail(&ring.board.shared, pass);
    for _ in rt.forever() {
        match len_behind(ring, pass, tail) {
            Ok(len) => return len,
            Err(found) => tail = found,
        }
    }
    unreachable!()
}

/// The same, or `None` where the tail moved at each of this many tries. It waits for nobody.
pub(crate) fn try_len<T>(ring: &Bounded<T>, pass: &mut Pass<T>, tries: u32) -> Option<usize>
    requires { IsFreeSeatOf ring.now.board.shared ring.now.shape pass.old }
    ensures same { StaysFree pass.old pass.new }
    ensures answers { IfSome result (λ len. len_at ring.now.shape pass.new.me.0.found ≡ End (Length len)) }
    ensures within { IfSome result (λ len. len ≤ ring.now.shape.capacity) }
{
    let mut tail = moves::begin_tail(&ring.board.shared, pass);
    for _ in 0..tries {
        match len_behind(ring, pass, tail) {
            Ok(len) => return Some(len),
            Err(found) => tail = found,
        }
    }
    None
}

/// Whether the ring was empty when the tail was loaded, after the head.
pub fn is_empty<T>(ring: &Bounded<T>, pass: &mut Pass<T>) -> bool
    requires { IsFreeSeatOf ring.now.board.shared ring.now.shape pass.old }
    ensures same { StaysFree pass.old pass.new }
    ensures answers { is_empty_at ring.now.shape pass.new.me.0.found ≡ End (says result) }
{
    let head = moves::begin_head(&ring.board.shared, pass);
    let tail = moves::look_at_tail(&ring.board.shared, pass);
    steps::is_empty(ring.shape, head, tail)
}

/// Whether the ring was full when the head was loaded, after the tail.
pub fn is_full<T>(ring: &Bounded<T>, pass: &mut Pass<T>) -> bool
    requires { IsFreeSeatOf ring.now.board.shared ring.now.shape pass.old }
    ensures same { StaysFree pass.old pass.new }
    ensures answers { is_full_at ring.now.shape pass.new.me.0.found ≡ End (says result) }
{
    let tail = moves::begin_tail(&ring.board.shared, pass);
    let head = moves::look_at_head(&ring.board.shared, pass);
    steps::is_full(ring.shape, tail, head)
}

/// Whether the ring was closed when the tail was loaded.
pub fn is_closed<T>(ring: &Bounded<T>, pass: &mut Pass<T>) -> bool
    requires { IsFreeSeatOf ring.now.board.shared ring.now.shape pass.old }
    ensures same { StaysFree pass.old pass.new }
    ensures answers { is_closed_at ring.now.shape pass.new.me.0.found ≡ End (says result) }
    ensures keeps { pass.new.me.0.closed ≡ result }
    ensures stays_closed { pass.old.me.0.closed ≡ true → result ≡ true }
{
    let tail = moves::begin_tail(&ring.board.shared, pass);
    steps::is_closed(ring.shape, tail)
}
