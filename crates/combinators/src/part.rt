//! The state that each of these futures has for one that it awaits: the future, and then its output. It is `Awaited` of `waiting`.
ghost use Rattle.combinators.specs.Parts.{GoesOn, HasAsked, HasTried, is_done};
ghost use Rattle.std.specs.Prelude.{◌≡◌, Some};
ghost use Rattle.waiting.specs.Both.{output_of};
ghost use Rattle.waiting.specs.declared.both.Awaited.TheVariants.{Given};

use async_task::{Future, Poll};
use std::mem;
use waiting::Awaited;

/// Polls the future, where its output hasn't come yet. With its output the future goes, at once.
fn ask<K, F, T: Drop>(part: &mut Awaited<F, T>, waker: &K) -> Option<F::Output>
where
    F: Future<K> + Drop,
    ensures { HasAsked part.old part.new result }
{
    if let Awaited::Waiting(future) = part {
        if let Poll::Ready(output) = future.poll(waker) {
            *part = Awaited::Given;
            return Some(output);
        }
    }
    None
}

/// Polls the future, where its output hasn't come yet, and keeps the output.
pub fn go_on<K, F, T: Drop>(part: &mut Awaited<F, T>, waker: &K)
where
    F: Future<K, Output = T> + Drop,
    ensures { GoesOn part.old part.new }
{
    if let Some(output) = ask(part, waker) {
        *part = Awaited::Done(output);
    }
}

/// The same for a future that may fail: it keeps an output, and answers an error.
pub fn try_to_go_on<K, F, T: Drop, E>(part: &mut Awaited<F, T>, waker: &K) -> Result<(), E>
where
    F: Future<K, Output = Result<T, E>> + Drop,
    ensures { HasTried part.old part.new result }
{
    match ask(part, waker) {
        Some(Ok(output)) => {
            *part = Awaited::Done(output);
            Ok(())
        }
        Some(Err(error)) => Err(error),
        None => Ok(()),
    }
}

/// Whether its output is kept.
pub fn is_done<F, T>(part: &Awaited<F, T>) -> bool
    ensures { result ≡ is_done part.now }
{
    matches!(part, Awaited::Done(_))
}

/// Gives the output that is kept.
pub fn give<F: Drop, T: Drop>(part: &mut Awaited<F, T>) -> Option<T>
    ensures output { result ≡ output_of part.old }
    ensures gone { part.new ≡ Given }
{
    match mem::replace(part, Awaited::Given) {
        Awaited::Done(output) => Some(output),
        Awaited::Waiting(_) | Awaited::Given => None,
    }
}
