//! How a receiver that may wait receives a message.
ghost use Rattle.std.specs.Prelude.{◌≡◌, IsSome};
ghost use Rattle.waiting.specs.declared.channel.receiving.Heard.TheVariants as heard;

use crate::channel::line::{Ended, Nothing};
use crate::channel::shared::{Shared, Turn, go_on};
use crate::listener::Listener;
use async_task::{NoMemory, Wake};
use std::sync::Wait;

/// What a receiver that asks for a message finds.
pub enum Heard<T> {
    Message(T),
    /// None is there. The waker is called when one comes.
    Waits,
    /// None is left, and none comes any more.
    Over(Ended),
    /// None is there, and there was no memory for a place among the waiters.
    NoMemory,
}

/// Looks until there is a message, or none comes any more, or it has to wait.
pub fn receive_or_wait<T: Drop, A: Wake + Drop, B: Wake + Drop, R: Wait + Copy + Drop>(
    shared: &Shared<T, A, B, R>,
    waiting: &mut Option<Listener<B, R>>,
    waker: &B,
) -> Heard<T>
    ensures waits { result ≡ heard.Waits → IsSome waiting.new }
{
    for _ in shared.rt().forever() {
        match shared.try_recv() {
            Ok(message) => {
                *waiting = None;
                return Heard::Message(message);
            }
            Err(Nothing::Over(ended)) => {
                *waiting = None;
                return Heard::Over(ended);
            }
            Err(Nothing::Empty) => {}
        }
        match go_on(shared.messages(), waiting, waker) {
            Ok(Turn::Looks) => {}
            Ok(Turn::Waits) => return Heard::Waits,
            Err(NoMemory) => return Heard::NoMemory,
        }
    }
    unreachable!()
}
