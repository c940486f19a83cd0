//! How a sender that may wait sends a message.
ghost use Rattle.waiting.specs.Sending.{HasTried};

use crate::channel::errors::{SendError, TrySendError};
use crate::channel::line::Sent;
use crate::channel::shared::{Shared, Turn, go_on};
use crate::listener::Listener;
use async_task::{NoMemory, Wake};
use std::sync::Wait;

/// The outcome of one try to send.
pub enum Tried<T> {
    Sent(Sent),
    Refused(SendError<T>),
    /// No place is free. The waker is called when one is.
    Waits(T),
    /// No place was free; one may be now.
    Again(T),
}

/// Tries to send until the message is sent or refused, or the sender has to wait.
pub fn send_or_wait<T: Drop, A: Wake + Drop, B: Wake + Drop, R: Wait + Copy + Drop>(
    shared: &Shared<T, A, B, R>,
    waiting: &mut Option<Listener<A, R>>,
    waker: &A,
    item: T,
) -> Tried<T>
    ensures { HasTried item result }
{
    let mut item = item;
    for _ in shared.rt().forever() {
        match try_once(shared, waiting, waker, item) {
            Tried::Again(back) => item = back,
            tried => return tried,
        }
    }
    unreachable!()
}

/// Tries to send. Where no place is free it listens, or awaits the notification for which it listens already.
fn try_once<T: Drop, A: Wake + Drop, B: Wake + Drop, R: Wait + Copy + Drop>(
    shared: &Shared<T, A, B, R>,
    waiting: &mut Option<Listener<A, R>>,
    waker: &A,
    item: T,
) -> Tried<T>
    ensures { HasTried item result }
{
    let item = match shared.try_send(item) {
        Ok(sent) => {
            *waiting = None;
            return Tried::Sent(sent);
        }
        Err(TrySendError::Closed(item)) => {
            *waiting = None;
            return Tried::Refused(SendError::Closed(item));
        }
        Err(TrySendError::NoMemory(item)) => return Tried::Refused(SendError::NoMemory(item)),
        Err(TrySendError::Full(item)) => item,
    };
    match go_on(shared.places(), waiting, waker) {
        Ok(Turn::Looks) => Tried::Again(item),
        Ok(Turn::Waits) => Tried::Waits(item),
        Err(NoMemory) => Tried::Refused(SendError::NoMemory(item)),
    }
}
