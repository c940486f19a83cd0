//! `push` and `force_push` on a single slot.
//! They take their turns from `queue_steps::steps`. A push makes the first ones before the loop,
//! where a compiler sees which comes next.
ghost use Rattle.std.specs.Prelude.{◌≡◌, ◌≢◌, true, MatchResult, IsErr};
ghost use Rattle.queue_steps.specs.Reply.{Reply, Done};
ghost use Rattle.queue_steps.specs.SingleTurns.{End};
ghost use Rattle.queue_steps.specs.SingleCallTurns.{of_push};
ghost use Rattle.concurrent_queue.specs.Answered.{PushSays, ForcePushSays};
ghost use Rattle.concurrent_queue.specs.SingleSeat.{IsSeatOf, IsSameSeat, push_at, force_push_at, IsPushTurn};

use crate::single::Single;
use crate::single::moves::{self, Pass};
use crossbeam_utils::Backoff;
use queue_steps::steps::single::{self as steps, ForcePushTurn, PushTurn};
use queue_steps::{ForcePushError, PushError};
use std::sync::Wait;

// A push, from where it stands.
#[inline(never)]
fn push_from<T, R: Wait>(
    rt: &R,
    slot: &Single<T>,
    pass: &mut Pass<T>,
    turn: PushTurn,
    value: T,
) -> Result<(), PushError<T>>
    requires seat { IsSeatOf slot.now.board.shared pass.old }
    requires stands { (of_push turn ≡ push_at pass.old.me.0.found) × IsPushTurn turn }
    ensures same { IsSameSeat pass.old pass.new }
    ensures answers { (reply : Reply) × (push_at pass.new.me.0.found ≡ End reply) × PushSays value reply result }
    ensures stays_closed { pass.old.me.0.closed ≡ true → IsErr result }
{
    let backoff = Backoff::new();
    let mut value = value;
    let mut turn = turn;
    for _ in rt.forever() {
        match turn {
            PushTurn::Exchange(old, new) => match moves::write(
                &slot.board.shared,
                pass,
                old,
                new,
                value,
            ) {
                Ok((held, _last)) => match held {
                    None => return Ok(()),
                    Some(_) => unreachable!(),
                },
                Err((found, back)) => {
                    value = back;
                    turn = steps::push(found);
                }
            },
            PushTurn::Look => {
                backoff.snooze();
                turn = steps::push(moves::look(&slot.board.shared, pass));
            }
            PushTurn::Full => return Err(PushError::Full(value)),
            PushTurn::Closed => return Err(PushError::Closed(value)),
        }
    }
    unreachable!()
}

// The first turns of a push. They are all its turns on an empty slot, where no other call comes between. Otherwise it answers
// where the push stands then, and the value.
#[inline(always)]
fn push_at_once<T>(slot: &Single<T>, pass: &mut Pass<T>, value: T) -> Result<(), (PushTurn, T)>
    requires { IsSeatOf slot.now.board.shared pass.old }
    ensures same { IsSameSeat pass.old pass.new }
    ensures made { MatchResult result (λ _. (pass.old.me.0.closed ≢ true) × (push_at pass.new.me.0.found ≡ End Done))
        (λ e. (e.1 ≡ value) × (of_push e.0 ≡ push_at pass.new.me.0.found) × IsPushTurn e.0) }
{
    let turn = steps::push(moves::begin(&slot.board.shared, pass));
    let PushTurn::Exchange(old, new) = turn else {
        return Err((turn, value));
    };
    match moves::write(&slot.board.shared, pass, old, new, value) {
        Ok((held, _last)) => match held {
            None => Ok(()),
            Some(_) => unreachable!(),
        },
        Err((found, back)) => Err((steps::push(found), back)),
    }
}

/// Appends a value. A refused value comes back. It waits while a pop is reading.
#[inline(always)]
pub fn push<T, R: Wait>(
    rt: &R,
    slot: &Single<T>,
    pass: &mut Pass<T>,
    value: T,
) -> Result<(), PushError<T>>
    requires { IsSeatOf slot.now.board.shared pass.old }
    ensures same { IsSameSeat pass.old pass.new }
    ensures answers { (reply : Reply) × (push_at pass.new.me.0.found ≡ End reply) × PushSays value reply result }
    ensures stays_closed { pass.old.me.0.closed ≡ true → IsErr result }
{
    match push_at_once(slot, pass, value) {
        Ok(()) => Ok(()),
        Err((turn, back)) => push_from(rt, slot, pass, turn, back),
    }
}

/// Appends a value, and answers the item where it displaced one on a full slot. A refused value comes back.
pub fn force_push<T, R: Wait>(
    rt: &R,
    slot: &Single<T>,
    pass: &mut Pass<T>,
    value: T,
) -> Result<Option<T>, ForcePushError<T>>
    requires { IsSeatOf slot.now.board.shared pass.old }
    ensures same { IsSameSeat pass.old pass.new }
    ensures answers { (reply : Reply) × (force_push_at pass.new.me.0.found ≡ End reply) × ForcePushSays value reply result }
    ensures stays_closed { pass.old.me.0.closed ≡ true → IsErr result }
{
    let backoff = Backoff::new();
    let mut value = value;
    let mut turn = steps::force_push(moves::begin(&slot.board.shared, pass));
    for _ in rt.forever() {
        match turn {
            ForcePushTurn::Exchange(old, new) => match moves::write(
                &slot.board.shared,
                pass,
                old,
                new,
                value,
            ) {
                Ok((held, _last)) => return Ok(held),
                Err((found, back)) => {
                    value = back;
                    turn = steps::force_push(found);
                }
            },
            ForcePushTurn::Look => {
                backoff.snooze();
                turn = steps::force_push(moves::look(&slot.board.shared, pass));
            }
            ForcePushTurn::Closed => return Err(ForcePushError::Closed(value)),
        }
    }
    unreachable!()
}
