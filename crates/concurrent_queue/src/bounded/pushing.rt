//! `push` and `force_push` on a ring. Until they have a place they take the same turns, except on a full ring. The turns are those
//! of `queue_steps::steps`. A push makes the first ones before the loop, where a compiler sees which comes next.
ghost use Rattle.std.specs.Prelude.{◌≡◌, ◌≢◌, ℕ, ◌+◌, ◌*◌, Option, Some, None, [], ◌∷◌, ◌++◌, true, if◌then◌else◌, MatchResult, IsErr};
ghost use Rattle.concurrent_queue.specs.Answered.{PushSays, ForcePushSays};
ghost use Rattle.concurrent_queue.specs.BoundedSeat.{IsFreeSeatOf, StaysFree, push_at, force_push_at};
ghost use Rattle.concurrent_queue.specs.BoundedStands.{PushStands, DisplaceStands, PushesOn};
ghost use Rattle.queue_steps.specs.Reply.{Reply, Done, Displaced, Full};
ghost use Rattle.queue_steps.specs.BoundedTurns.{Tail, Stamp, HeadFor, Append, Spend, End, push_turn};
ghost use Rattle.queue_steps.specs.BoundedCallTurns.{of_push};

use crate::bounded::Bounded;
use crate::bounded::moves::{self, Pass};
use crossbeam_utils::Backoff;
use queue_steps::steps::bounded::{self as steps, ForcePushTurn, PushTurn, Shape};
use queue_steps::{ForcePushError, PushError};
use std::sync::Wait;

#[inline(always)]
fn begins<T>(ring: &Bounded<T>, pass: &mut Pass<T>) -> PushTurn
    requires { IsFreeSeatOf ring.now.board.shared ring.now.shape pass.old }
    ensures same { StaysFree pass.old pass.new }
    ensures stands { PushStands ring.now.shape result pass.new.me.0 }
    ensures plain { of_push result ≡ push_at ring.now.shape pass.new.me.0.found }
    ensures forced { of_push result ≡ force_push_at ring.now.shape pass.new.me.0.found }
{
    let found = moves::begin_tail(&ring.board.shared, pass);
    steps::push_at_tail(ring.shape, found)
}

fn at_tail<T>(ring: &Bounded<T>, pass: &mut Pass<T>) -> PushTurn
    requires { IsFreeSeatOf ring.now.board.shared ring.now.shape pass.old }
    ensures same { StaysFree pass.old pass.new }
    ensures on { PushesOn ring.now.shape Tail pass.old.me.0 result pass.new.me.0 }
{
    let found = moves::tail(&ring.board.shared, pass);
    steps::push_at_tail(ring.shape, found)
}

#[inline(always)]
fn at_stamp<T>(ring: &Bounded<T>, pass: &mut Pass<T>, tail: u64) -> PushTurn
    requires seat { IsFreeSeatOf ring.now.board.shared ring.now.shape pass.old }
    requires stands { PushStands ring.now.shape (PushTurn.Stamp tail) pass.old.me.0 }
    ensures same { StaysFree pass.old pass.new }
    ensures on { PushesOn ring.now.shape (Stamp tail) pass.old.me.0 result pass.new.me.0 }
{
    let index = ring.shape.index(tail) as usize;
    let found = moves::stamp_at_tail(&ring.board.shared, pass, index);
    steps::push_at_stamp(ring.shape, tail, found)
}

// The close by a push of one item too many.
fn at_spend<T>(ring: &Bounded<T>, pass: &mut Pass<T>, tail: u64) -> PushTurn
    requires seat { IsFreeSeatOf ring.now.board.shared ring.now.shape pass.old }
    requires stands { PushStands ring.now.shape (PushTurn.Spend tail) pass.old.me.0 }
    ensures same { StaysFree pass.old pass.new }
    ensures on { PushesOn ring.now.shape (Spend tail) pass.old.me.0 result pass.new.me.0 }
{
    let found = moves::spend(&ring.board.shared, pass, tail, tail | ring.shape.mark);
    steps::push_at_spend(ring.shape, tail, found)
}

// The append with its write. Otherwise the turn that follows, and the value.
#[inline(always)]
fn append<T>(
    ring: &Bounded<T>,
    pass: &mut Pass<T>,
    tail: u64,
    value: T,
) -> Result<(), (PushTurn, T)>
    requires seat { IsFreeSeatOf ring.now.board.shared ring.now.shape pass.old }
    requires stands { PushStands ring.now.shape (PushTurn.Append tail) pass.old.me.0 }
    ensures same { StaysFree pass.old pass.new }
    ensures on { MatchResult result (λ _. (w : ℕ) × (pass.new.me.0.found ≡ (pass.old.me.0.found ++ tail ∷ []) ++ w ∷ []))
        (λ e. (e.1 ≡ value) × PushesOn ring.now.shape (Append tail) pass.old.me.0 e.0 pass.new.me.0) }
{
    let found = moves::append(&ring.board.shared, pass, tail, ring.shape.next(tail));
    if found != tail {
        return Err((steps::push_at_tail(ring.shape, found), value));
    }
    match moves::write(
        &ring.board.shared,
        pass,
        ring.shape.index(tail) as usize,
        tail + 1,
        value,
    ) {
        None => Ok(()),
        Some(_) => unreachable!(),
    }
}

// The look at the head of a push: whether the ring is full.
fn is_full_for<T>(ring: &Bounded<T>, pass: &mut Pass<T>, tail: u64) -> bool
    requires { IsFreeSeatOf ring.now.board.shared ring.now.shape pass.old }
    ensures same { StaysFree pass.old pass.new }
    ensures on { (w : ℕ) × (pass.new.me.0.found ≡ pass.old.me.0.found ++ w ∷ [])
        × (push_turn ring.now.shape.capacity ring.now.shape.mark (HeadFor tail) w ≡ if result then End Full else Tail) }
{
    let found = moves::look_at_head(&ring.board.shared, pass);
    steps::is_full_at_head(ring.shape, tail, found)
}

// The displacement with its append and its swap. Otherwise the value, since the head was another.
fn displace<T>(ring: &Bounded<T>, pass: &mut Pass<T>, tail: u64, value: T) -> Result<T, T>
    requires seat { IsFreeSeatOf ring.now.board.shared ring.now.shape pass.old }
    requires stands { DisplaceStands ring.now.shape tail pass.old.me.0 }
    ensures same { StaysFree pass.old pass.new }
    ensures on { MatchResult result (λ _. (v w x : ℕ) × (v + 2 * ring.now.shape.mark ≡ tail)
        × (pass.new.me.0.found ≡ ((pass.old.me.0.found ++ v ∷ []) ++ w ∷ []) ++ x ∷ [])) (λ back. (back ≡ value)
        × ((v : ℕ) × (v + 2 * ring.now.shape.mark ≢ tail) × (pass.new.me.0.found ≡ pass.old.me.0.found ++ v ∷ []))) }
{
    let head = tail - ring.shape.lap();
    let found = moves::displace(&ring.board.shared, pass, head, ring.shape.next(head));
    if found != head {
        return Err(value);
    }
    moves::advance(&ring.board.shared, pass, tail, ring.shape.next(tail));
    match moves::write(
        &ring.board.shared,
        pass,
        ring.shape.index(tail) as usize,
        tail + 1,
        value,
    ) {
        Some(oldest) => Ok(oldest),
        None => unreachable!(),
    }
}

// The look at the head of a forced push, and on a full ring the displacement. Otherwise where it stands then, and the value.
fn at_head<T>(
    ring: &Bounded<T>,
    pass: &mut Pass<T>,
    tail: u64,
    value: T,
) -> Result<T, (PushTurn, T)>
    requires seat { IsFreeSeatOf ring.now.board.shared ring.now.shape pass.old }
    requires stands { (HeadFor tail ≡ force_push_at ring.now.shape pass.old.me.0.found)
        × PushStands ring.now.shape (PushTurn.HeadFor tail) pass.old.me.0 }
    ensures same { StaysFree pass.old pass.new }
    ensures made { MatchResult result (λ _. force_push_at ring.now.shape pass.new.me.0.found ≡ End Displaced) (λ e. (e.1 ≡ value)
        × (of_push e.0 ≡ force_push_at ring.now.shape pass.new.me.0.found) × PushStands ring.now.shape e.0 pass.new.me.0) }
{
    let head = moves::look_at_head(&ring.board.shared, pass);
    match steps::force_push_at_head(ring.shape, tail, head) {
        ForcePushTurn::Push(turn) => Err((turn, value)),
        ForcePushTurn::Displace(tail) => match displace(ring, pass, tail, value) {
            Ok(oldest) => Ok(oldest),
            Err(back) => Err((PushTurn::Tail, back)),
        },
    }
}

// A push, from where it stands.
#[inline(never)]
fn push_from<T, R: Wait>(
    rt: &R,
    ring: &Bounded<T>,
    pass: &mut Pass<T>,
    turn: PushTurn,
    value: T,
) -> Result<(), PushError<T>>
    requires seat { IsFreeSeatOf ring.now.board.shared ring.now.shape pass.old }
    requires stands { (of_push turn ≡ push_at ring.now.shape pass.old.me.0.found) × PushStands ring.now.shape turn pass.old.me.0 }
    ensures same { StaysFree pass.old pass.new }
    ensures answers { (reply : Reply) × (push_at ring.now.shape pass.new.me.0.found ≡ End reply) × PushSays value reply result }
    ensures stays_closed { pass.old.me.0.closed ≡ true → IsErr result }
{
    let backoff = Backoff::new();
    let mut value = value;
    let mut turn = turn;
    for _ in rt.forever() {
        match turn {
            PushTurn::Stamp(tail) => turn = at_stamp(ring, pass, tail),
            PushTurn::Append(tail) => match append(ring, pass, tail, value) {
                Ok(()) => return Ok(()),
                Err(left) => (turn, value) = left,
            },
            PushTurn::HeadFor(tail) => {
                if is_full_for(ring, pass, tail) {
                    return Err(PushError::Full(value));
                }
                turn = PushTurn::Tail;
            }
            PushTurn::Tail => {
                backoff.snooze();
                turn = at_tail(ring, pass);
            }
            PushTurn::Spend(tail) => turn = at_spend(ring, pass, tail),
            PushTurn::Closed => return Err(PushError::Closed(value)),
        }
    }
    unreachable!()
}

// The first three turns of a push. They are all its turns on a ring with a free place, where no other call comes between.
// Otherwise it answers where the push stands then, and the value.
#[inline(always)]
fn push_at_once<T>(ring: &Bounded<T>, pass: &mut Pass<T>, value: T) -> Result<(), (PushTurn, T)>
    requires { IsFreeSeatOf ring.now.board.shared ring.now.shape pass.old }
    ensures same { StaysFree pass.old pass.new }
    ensures made { MatchResult result (λ _. (pass.old.me.0.closed ≢ true) × (push_at ring.now.shape pass.new.me.0.found ≡ End Done))
        (λ e. (e.1 ≡ value) × (of_push e.0 ≡ push_at ring.now.shape pass.new.me.0.found) × PushStands ring.now.shape e.0 pass.new.me.0) }
{
    let turn = begins(ring, pass);
    let PushTurn::Stamp(tail) = turn else {
        return Err((turn, value));
    };
    let turn = at_stamp(ring, pass, tail);
    let PushTurn::Append(tail) = turn else {
        return Err((turn, value));
    };
    append(ring, pass, tail, value)
}

/// Appends a value. A refused value comes back.
#[inline(always)]
pub fn push<T, R: Wait>(
    rt: &R,
    ring: &Bounded<T>,
    pass: &mut Pass<T>,
    value: T,
) -> Result<(), PushError<T>>
    requires { IsFreeSeatOf ring.now.board.shared ring.now.shape pass.old }
    ensures same { StaysFree pass.old pass.new }
    ensures answers { (reply : Reply) × (push_at ring.now.shape pass.new.me.0.found ≡ End reply) × PushSays value reply result }
    ensures stays_closed { pass.old.me.0.closed ≡ true → IsErr result }
{
    match push_at_once(ring, pass, value) {
        Ok(()) => Ok(()),
        Err((turn, back)) => push_from(rt, ring, pass, turn, back),
    }
}

/// Appends a value, and answers the oldest item where it displaced that on a full ring. A refused value comes back.
pub fn force_push<T, R: Wait>(
    rt: &R,
    ring: &Bounded<T>,
    pass: &mut Pass<T>,
    value: T,
) -> Result<Option<T>, ForcePushError<T>>
    requires { IsFreeSeatOf ring.now.board.shared ring.now.shape pass.old }
    ensures same { StaysFree pass.old pass.new }
    ensures answers { (reply : Reply) × (force_push_at ring.now.shape pass.new.me.0.found ≡ End reply) × ForcePushSays value reply result }
    ensures stays_closed { pass.old.me.0.closed ≡ true → IsErr result }
{
    let backoff = Backoff::new();
    let mut value = value;
    let mut turn = begins(ring, pass);
    for _ in rt.forever() {
        match turn {
            PushTurn::Stamp(tail) => turn = at_stamp(ring, pass, tail),
            PushTurn::Append(tail) => match append(ring, pass, tail, value) {
                Ok(()) => return Ok(None),
                Err(left) => (turn, value) = left,
            },
            PushTurn::HeadFor(tail) => match at_head(ring, pass, tail, value) {
                Ok(oldest) => return Ok(Some(oldest)),
                Err(left) => (turn, value) = left,
            },
            PushTurn::Tail => {
                backoff.snooze();
                turn = at_tail(ring, pass);
            }
            PushTurn::Spend(tail) => turn = at_spend(ring, pass, tail),
            PushTurn::Closed => return Err(ForcePushError::Closed(value)),
        }
    }
    unreachable!()
}
