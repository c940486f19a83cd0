//! The first order that fails, by seeds.
ghost use Rattle.orders.specs.Ends.{AllRight, EndsFirst};
ghost use Rattle.std.specs.Fn.{CalledAt};
ghost use Rattle.std.specs.Prelude.{◌-◌, ◌<◌, ◌≤◌, IfNone, IfOk, IfSome};

use crate::asking::Asking;
use crate::beside::Beside;
use crate::calls::Extra;
use crate::chooser::Drawn;
use crate::failure::{End, Failure};
use crate::playing::{Terms, play};
use crate::shortening::{Shortening, shorten};
use async_task::Future;
use std::alloc::Global;
use std::collections::VecDeque;
use std::fmt::Debug;
use std::io;
use std::ops::Range;

/// How many calls an order of a seed may have: one that could go on then is a failure, `End::Cut`.
pub const MOST_CALLS: usize = 1_000;

/// Plays the futures that `make` makes in the order of each seed, until the end of one is wrong: `check` looks at what stands
/// beside them, and says whether it is right. The order that failed comes back, with a short form that fails too.
///
/// An order ends where no future waits for a wake that it asked for, or is queued, or is still to be spawned, and nothing beside may
/// step. The futures and outputs that are left are dropped behind the check. Equal seeds give equal orders, as long as `make` makes
/// the same and the futures do the same.
///
/// It takes memory, and answers an error where that is refused, or `make` answers one: a None says that no order of these seeds
/// failed.
pub fn first_failure<F, T, X, M, C>(
    alloc: Global,
    seeds: Range<u64>,
    make: M,
    check: C,
) -> io::Result<Option<Failure>>
where
    T: Debug + Drop,
    F: Future<Asking, Output = T> + Drop,
    X: Beside + Drop,
    M: FnMut() -> io::Result<(VecDeque<F>, X)>,
    C: FnMut(&X) -> bool,
    requires make { M.IsAlwaysCallable make }
    requires check { C.IsAlwaysCallable check }
    ensures none { IfOk result (λ found. IfNone found (AllRight (CalledAt C.FnMut) check (seeds.end - seeds.start))) }
    ensures first { IfOk result (λ found. IfSome found (λ failure. EndsFirst (CalledAt C.FnMut) check (failure.number - seeds.start) failure.end)) }
    ensures seed { IfOk result (λ found. IfSome found (λ failure. (seeds.start ≤ failure.number) × (failure.number < seeds.end))) }
{
    first_failure_among(alloc, seeds, Extra::default(), make, check)
}

/// The same, where an order may also have so many calls that no executor makes by itself: futures are cancelled or woken unasked,
/// handles are dropped, copies of wakers refused.
pub fn first_failure_among<F, T, X, M, C>(
    alloc: Global,
    seeds: Range<u64>,
    extra: Extra,
    mut make: M,
    mut check: C,
) -> io::Result<Option<Failure>>
where
    T: Debug + Drop,
    F: Future<Asking, Output = T> + Drop,
    X: Beside + Drop,
    M: FnMut() -> io::Result<(VecDeque<F>, X)>,
    C: FnMut(&X) -> bool,
    requires make { M.IsAlwaysCallable make }
    requires check { C.IsAlwaysCallable check }
    ensures none { IfOk result (λ found. IfNone found (AllRight (CalledAt C.FnMut) check (seeds.end - seeds.start))) }
    ensures first { IfOk result (λ found. IfSome found (λ failure. EndsFirst (CalledAt C.FnMut) check (failure.number - seeds.start) failure.end)) }
    ensures seed { IfOk result (λ found. IfSome found (λ failure. (seeds.start ≤ failure.number) × (failure.number < seeds.end))) }
{
    let terms = Terms {
        most: MOST_CALLS,
        extra,
    };
    for number in seeds.start..seeds.end {
        let mut drawn = Drawn::new(number);
        let played = play(alloc, terms, &mut drawn, &mut make, &mut check)?;
        if played.end() != End::Right {
            let found = Shortening::new(alloc, number, terms, played)?;
            return Ok(Some(shorten(found, make, check)?));
        }
        drop(played.into_order());
    }
    Ok(None)
}
