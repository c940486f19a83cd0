//! A failing order is made shorter: one call after the other is left out, while it still fails.
ghost use Rattle.orders.specs.declared.failure.End.TheVariants.{Right};
ghost use Rattle.std.specs.Prelude.{◌<◌, ◌≡◌, ◌≢◌, IfOk, IfSome, length};

use crate::asking::Asking;
use crate::beside::Beside;
use crate::calls::Call;
use crate::chooser::Listed;
use crate::failure::Failure;
use crate::played::Played;
use crate::playing::{Terms, play};
use async_task::Future;
use std::alloc::{AllocError, Global};
use std::collections::VecDeque;
use std::fmt::Debug;
use std::io;

/// A failing order, and how far it is shortened: the calls that have to be said, and how many of them weren't tried.
#[derive(Drop)]
pub struct Shortening {
    failure: Failure,
    alloc: Global,
    terms: Terms,
    kept: VecDeque<Call>,
    untried: usize,
}

impl Shortening {
    /// Of an order that was played, and failed.
    pub fn new(alloc: Global, number: u64, terms: Terms, played: Played) -> Result<Self, AllocError>
        requires { played.end ≢ Right }
        ensures number { IfOk result (λ s. s.failure.number ≡ number) }
        ensures end { IfOk result (λ s. s.failure.end ≡ played.end) }
        ensures orders { IfOk result (λ s. (s.failure.found ≡ played.order) × (length s.failure.short.made.items ≡ length played.order.made.items)) }
    {
        let end = played.end();
        let found = played.into_order();
        let kept = found.calls(alloc)?;
        let untried = kept.len();
        let short = found.copy(alloc)?;
        let failure = Failure {
            number,
            end,
            extra: terms.extra,
            found,
            short,
        };
        Ok(Shortening {
            failure,
            alloc,
            terms,
            kept,
            untried,
        })
    }

    /// The next list to be played: what is kept, without the last call that wasn't tried. None, where all were tried.
    fn begin(&mut self) -> Result<Option<Listed>, AllocError>
        ensures same { self.new.failure ≡ self.old.failure }
        ensures fewer { IfOk result (λ next. IfSome next (λ _. self.new.untried < self.old.untried)) }
    {
        if self.untried == 0 {
            return Ok(None);
        }
        self.untried -= 1;
        let mut calls = VecDeque::new(self.alloc);
        for (place, call) in self.kept.iter().enumerate() {
            if place != self.untried {
                calls.push_back(*call)?;
            }
        }
        Ok(Some(Listed(calls)))
    }

    /// That list made this order: it takes the place of the short form, if it ends like it and is no longer.
    fn end(&mut self, played: Played)
        ensures kept { (played.end ≢ self.old.failure.end) → self.new.failure ≡ self.old.failure }
        ensures found { self.new.failure.found ≡ self.old.failure.found }
        ensures number { self.new.failure.number ≡ self.old.failure.number }
        ensures end { self.new.failure.end ≡ self.old.failure.end }
        ensures untried { self.new.untried ≡ self.old.untried }
    {
        let is_same = played.end() == self.failure.end;
        let order = played.into_order();
        if is_same && order.made.len() <= self.failure.short.made.len() {
            self.failure.short = order;
            let _ = self.kept.remove(self.untried);
        }
    }
}

/// Shortens an order that failed, until each call that is left was tried.
pub fn shorten<F, T, X, M, C>(
    mut found: Shortening,
    mut make: M,
    mut check: C,
) -> io::Result<Failure>
where
    T: Debug + Drop,
    F: Future<Asking, Output = T> + Drop,
    X: Beside + Drop,
    M: FnMut() -> io::Result<(VecDeque<F>, X)>,
    C: FnMut(&X) -> bool,
    requires make { M.IsAlwaysCallable make }
    requires check { C.IsAlwaysCallable check }
    ensures number { IfOk result (λ failure. failure.number ≡ found.failure.number) }
    ensures end { IfOk result (λ failure. failure.end ≡ found.failure.end) }
{
    while let Some(mut listed) = found.begin()? {
        let played = play(found.alloc, found.terms, &mut listed, &mut make, &mut check)?;
        found.end(played);
    }
    let Shortening { failure, .. } = found;
    Ok(failure)
}
