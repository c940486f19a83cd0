//! `pop` on a single slot.
//! It takes its turns from `queue_steps::steps`, and makes the first ones before the loop, where a
//! compiler sees which comes next.
ghost use Rattle.std.specs.Prelude.{◌≡◌, MatchResult};
ghost use Rattle.queue_steps.specs.Reply.{Reply, Done};
ghost use Rattle.queue_steps.specs.SingleTurns.{End};
ghost use Rattle.queue_steps.specs.SingleCallTurns.{of_pop};
ghost use Rattle.concurrent_queue.specs.Answered.{PopSays};
ghost use Rattle.concurrent_queue.specs.SingleSeat.{IsSeatOf, IsSameSeat, pop_at, IsPopTurn};

use crate::single::Single;
use crate::single::moves::{self, Pass};
use crossbeam_utils::Backoff;
use queue_steps::PopError;
use queue_steps::steps::single::{self as steps, PopTurn};
use std::sync::Wait;

// A pop, from where it stands.
#[inline(never)]
fn pop_from<T, R: Wait>(
    rt: &R,
    slot: &Single<T>,
    pass: &mut Pass<T>,
    turn: PopTurn,
) -> Result<T, PopError>
    requires seat { IsSeatOf slot.now.board.shared pass.old }
    requires stands { (of_pop turn ≡ pop_at pass.old.me.0.found) × IsPopTurn turn }
    ensures same { IsSameSeat pass.old pass.new }
    ensures answers { (reply : Reply) × (pop_at pass.new.me.0.found ≡ End reply) × PopSays reply result }
{
    let backoff = Backoff::new();
    let mut turn = turn;
    for _ in rt.forever() {
        match turn {
            PopTurn::Exchange(old, new) => match moves::read(&slot.board.shared, pass, old, new) {
                Ok((item, _last)) => return Ok(item),
                Err(found) => turn = steps::pop(found),
            },
            PopTurn::Look => {
                backoff.snooze();
                turn = steps::pop(moves::look(&slot.board.shared, pass));
            }
            PopTurn::Empty => return Err(PopError::Empty),
            PopTurn::Closed => return Err(PopError::Closed),
        }
    }
    unreachable!()
}

// The first turns of a pop. They are all its turns on a full slot, where no other call comes between. Otherwise it answers where
// the pop stands then.
#[inline(always)]
fn pop_at_once<T>(slot: &Single<T>, pass: &mut Pass<T>) -> Result<T, PopTurn>
    requires { IsSeatOf slot.now.board.shared pass.old }
    ensures same { IsSameSeat pass.old pass.new }
    ensures made { MatchResult result (λ _. pop_at pass.new.me.0.found ≡ End Done) (λ e. (of_pop e ≡ pop_at pass.new.me.0.found)
        × IsPopTurn e) }
{
    let turn = steps::pop(moves::begin(&slot.board.shared, pass));
    let PopTurn::Exchange(old, new) = turn else {
        return Err(turn);
    };
    match moves::read(&slot.board.shared, pass, old, new) {
        Ok((item, _last)) => Ok(item),
        Err(found) => Err(steps::pop(found)),
    }
}

/// Takes out the item. It waits for one that is being appended.
#[inline(always)]
pub fn pop<T, R: Wait>(rt: &R, slot: &Single<T>, pass: &mut Pass<T>) -> Result<T, PopError>
    requires { IsSeatOf slot.now.board.shared pass.old }
    ensures same { IsSameSeat pass.old pass.new }
    ensures answers { (reply : Reply) × (pop_at pass.new.me.0.found ≡ End reply) × PopSays reply result }
{
    match pop_at_once(slot, pass) {
        Ok(item) => Ok(item),
        Err(turn) => pop_from(rt, slot, pass, turn),
    }
}
