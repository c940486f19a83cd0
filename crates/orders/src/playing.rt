//! One order is played.
ghost use Rattle.orders.specs.Ends.{Asks};
ghost use Rattle.std.specs.Fn.{CalledAt};
ghost use Rattle.std.specs.Prelude.{IfOk};

use crate::asking::Asking;
use crate::beside::Beside;
use crate::calls::Extra;
use crate::chooser::Choose;
use crate::played::Played;
use crate::scheduler::Scheduler;
use async_task::Future;
use std::alloc::Global;
use std::collections::VecDeque;
use std::fmt::Debug;
use std::io;

/// What an order may have.
#[derive(Clone, Copy, Drop)]
pub struct Terms {
    /// How many calls.
    pub most: usize,
    /// Which calls beside those of every executor.
    pub extra: Extra,
}

/// Plays one order, with futures made anew, and asks the check. What is left of them is dropped behind it.
pub fn play<F, T, X, H, M, C>(
    alloc: Global,
    terms: Terms,
    chooser: &mut H,
    make: &mut M,
    check: &mut C,
) -> io::Result<Played>
where
    T: Debug + Drop,
    F: Future<Asking, Output = T> + Drop,
    X: Beside + Drop,
    H: Choose,
    M: FnMut() -> io::Result<(VecDeque<F>, X)>,
    C: FnMut(&X) -> bool,
    requires make { M.IsAlwaysCallable make.old }
    requires check { C.IsAlwaysCallable check.old }
    ensures makes { M.IsAlwaysCallable make.new }
    ensures checks { C.IsAlwaysCallable check.new }
    ensures asks { IfOk result (λ played. Asks (CalledAt C.FnMut) check.old played.end check.new) }
{
    let (futures, mut beside) = make()?;
    let mut scheduler = Scheduler::new(alloc, futures, terms.extra)?;
    scheduler.play(&mut beside, chooser, terms.most)?;
    let is_right = check(&beside);
    Ok(scheduler.end(is_right))
}
