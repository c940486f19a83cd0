//! An order that failed, once more.
ghost use Rattle.orders.specs.Ends.{Answers};
ghost use Rattle.std.specs.Fn.{FnOnceReturnsAt};
ghost use Rattle.std.specs.Prelude.{◌≡◌, ◌↔◌, IfOk, IsTrue};

use crate::asking::Asking;
use crate::beside::Beside;
use crate::chooser::Listed;
use crate::failure::Failure;
use crate::first::MOST_CALLS;
use crate::scheduler::Scheduler;
use async_task::Future;
use std::alloc::Global;
use std::collections::VecDeque;
use std::fmt::Debug;
use std::io;

/// Plays the short form of a failure once more: whether it ends as it did. A call of it that may not come is passed over, and behind
/// it the first that may come is made; so it says something of futures that were mended too.
///
/// It takes memory, and answers an error where that is refused, or `make` answers one.
pub fn fails_again<F, T, X, M, C>(
    alloc: Global,
    failure: &Failure,
    make: M,
    check: C,
) -> io::Result<bool>
where
    T: Debug + Drop,
    F: Future<Asking, Output = T> + Drop,
    X: Beside + Drop,
    M: FnOnce() -> io::Result<(VecDeque<F>, X)>,
    C: FnOnce(&X) -> bool,
    requires make { M.IsAlwaysCallable make }
    requires check { C.IsAlwaysCallable check }
    ensures { IfOk result (λ again. (end : _) × Answers (FnOnceReturnsAt C.FnOnce check) end × (IsTrue again ↔ (end ≡ failure.now.end))) }
{
    let mut listed = Listed(failure.short.calls(alloc)?);
    let (futures, mut beside) = make()?;
    let mut scheduler = Scheduler::new(alloc, futures, failure.extra)?;
    let most = failure.short.made.len().max(MOST_CALLS);
    scheduler.play(&mut beside, &mut listed, most)?;
    let is_right = check(&beside);
    Ok(scheduler.end(is_right).is_end(failure.end))
}
