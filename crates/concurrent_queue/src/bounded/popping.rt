//! `pop` on a ring.
//! It takes its turns from `queue_steps::steps`, and makes the first ones before the loop, where a
//! compiler sees which comes next.
ghost use Rattle.std.specs.Prelude.{◌≡◌, ℕ, ◌+◌, [], ◌∷◌, ◌++◌, MatchResult};
ghost use Rattle.concurrent_queue.specs.Answered.{PopSays};
ghost use Rattle.concurrent_queue.specs.BoundedSeat.{IsFreeSeatOf, StaysFree, pop_at};
ghost use Rattle.concurrent_queue.specs.BoundedStands.{PopStands, PopsOn};
ghost use Rattle.queue_steps.specs.Reply.{Reply, Done};
ghost use Rattle.queue_steps.specs.BoundedTurns.{Head, Stamp, TailFor, Take, End};
ghost use Rattle.queue_steps.specs.BoundedCallTurns.{of_pop};

use crate::bounded::Bounded;
use crate::bounded::moves::{self, Pass};
use crossbeam_utils::Backoff;
use queue_steps::PopError;
use queue_steps::steps::bounded::{self as steps, PopTurn, Shape};
use std::sync::Wait;

#[inline(always)]
fn begins<T>(ring: &Bounded<T>, pass: &mut Pass<T>) -> PopTurn
    requires { IsFreeSeatOf ring.now.board.shared ring.now.shape pass.old }
    ensures same { StaysFree pass.old pass.new }
    ensures stands { (of_pop result ≡ pop_at ring.now.shape pass.new.me.0.found) × PopStands ring.now.shape result pass.new.me.0 }
{
    let found = moves::begin_head(&ring.board.shared, pass);
    steps::pop_at_head(ring.shape, found)
}

fn at_head<T>(ring: &Bounded<T>, pass: &mut Pass<T>) -> PopTurn
    requires { IsFreeSeatOf ring.now.board.shared ring.now.shape pass.old }
    ensures same { StaysFree pass.old pass.new }
    ensures on { PopsOn ring.now.shape Head pass.old.me.0 result pass.new.me.0 }
{
    let found = moves::head(&ring.board.shared, pass);
    steps::pop_at_head(ring.shape, found)
}

#[inline(always)]
fn at_stamp<T>(ring: &Bounded<T>, pass: &mut Pass<T>, head: u64) -> PopTurn
    requires seat { IsFreeSeatOf ring.now.board.shared ring.now.shape pass.old }
    requires stands { PopStands ring.now.shape (PopTurn.Stamp head) pass.old.me.0 }
    ensures same { StaysFree pass.old pass.new }
    ensures on { PopsOn ring.now.shape (Stamp head) pass.old.me.0 result pass.new.me.0 }
{
    let index = ring.shape.index(head) as usize;
    let found = moves::stamp_at_head(&ring.board.shared, pass, index);
    steps::pop_at_stamp(ring.shape, head, found)
}

fn at_tail<T>(ring: &Bounded<T>, pass: &mut Pass<T>, head: u64) -> PopTurn
    requires { IsFreeSeatOf ring.now.board.shared ring.now.shape pass.old }
    ensures same { StaysFree pass.old pass.new }
    ensures on { PopsOn ring.now.shape (TailFor head) pass.old.me.0 result pass.new.me.0 }
{
    let found = moves::look_at_tail(&ring.board.shared, pass);
    steps::pop_at_tail(ring.shape, head, found)
}

// The take with its read. Otherwise the turn that follows.
#[inline(always)]
fn take<T>(ring: &Bounded<T>, pass: &mut Pass<T>, head: u64) -> Result<T, PopTurn>
    requires seat { IsFreeSeatOf ring.now.board.shared ring.now.shape pass.old }
    requires stands { PopStands ring.now.shape (PopTurn.Take head) pass.old.me.0 }
    ensures same { StaysFree pass.old pass.new }
    ensures on { MatchResult result (λ _. (w : ℕ) × (pass.new.me.0.found ≡ (pass.old.me.0.found ++ head ∷ []) ++ w ∷ []))
        (λ e. PopsOn ring.now.shape (Take head) pass.old.me.0 e pass.new.me.0) }
{
    let found = moves::take(&ring.board.shared, pass, head, ring.shape.next(head));
    if found != head {
        return Err(steps::pop_at_head(ring.shape, found));
    }
    Ok(moves::read(
        &ring.board.shared,
        pass,
        ring.shape.index(head) as usize,
        head + ring.shape.lap(),
    ))
}

// A pop, from where it stands.
#[inline(never)]
fn pop_from<T, R: Wait>(
    rt: &R,
    ring: &Bounded<T>,
    pass: &mut Pass<T>,
    turn: PopTurn,
) -> Result<T, PopError>
    requires seat { IsFreeSeatOf ring.now.board.shared ring.now.shape pass.old }
    requires stands { (of_pop turn ≡ pop_at ring.now.shape pass.old.me.0.found) × PopStands ring.now.shape turn pass.old.me.0 }
    ensures same { StaysFree pass.old pass.new }
    ensures answers { (reply : Reply) × (pop_at ring.now.shape pass.new.me.0.found ≡ End reply) × PopSays reply result }
{
    let backoff = Backoff::new();
    let mut turn = turn;
    for _ in rt.forever() {
        match turn {
            PopTurn::Stamp(head) => turn = at_stamp(ring, pass, head),
            PopTurn::Take(head) => match take(ring, pass, head) {
                Ok(item) => return Ok(item),
                Err(after) => turn = after,
            },
            PopTurn::TailFor(head) => turn = at_tail(ring, pass, head),
            PopTurn::Head => {
                backoff.snooze();
                turn = at_head(ring, pass);
            }
            PopTurn::Empty => return Err(PopError::Empty),
            PopTurn::Closed => return Err(PopError::Closed),
        }
    }
    unreachable!()
}

// The first three turns of a pop. They are all its turns on a ring that holds an item, where no other call comes between.
// Otherwise it answers where the pop stands then.
#[inline(always)]
fn pop_at_once<T>(ring: &Bounded<T>, pass: &mut Pass<T>) -> Result<T, PopTurn>
    requires { IsFreeSeatOf ring.now.board.shared ring.now.shape pass.old }
    ensures same { StaysFree pass.old pass.new }
    ensures made { MatchResult result (λ _. pop_at ring.now.shape pass.new.me.0.found ≡ End Done)
        (λ e. (of_pop e ≡ pop_at ring.now.shape pass.new.me.0.found) × PopStands ring.now.shape e pass.new.me.0) }
{
    let turn = begins(ring, pass);
    let PopTurn::Stamp(head) = turn else {
        return Err(turn);
    };
    let turn = at_stamp(ring, pass, head);
    let PopTurn::Take(head) = turn else {
        return Err(turn);
    };
    take(ring, pass, head)
}

/// Takes out the oldest item. It waits for one that is being appended.
#[inline(always)]
pub fn pop<T, R: Wait>(rt: &R, ring: &Bounded<T>, pass: &mut Pass<T>) -> Result<T, PopError>
    requires { IsFreeSeatOf ring.now.board.shared ring.now.shape pass.old }
    ensures same { StaysFree pass.old pass.new }
    ensures answers { (reply : Reply) × (pop_at ring.now.shape pass.new.me.0.found ≡ End reply) × PopSays reply result }
{
    match pop_at_once(ring, pass) {
        Ok(item) => Ok(item),
        Err(turn) => pop_from(rt, ring, pass, turn),
    }
}
