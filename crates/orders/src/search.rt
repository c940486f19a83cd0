//! What a search through all orders counts.
ghost use Rattle.orders.specs.Ends.{is_cut, is_wrong};
ghost use Rattle.std.specs.Option.{ForNone, ForSome};
ghost use Rattle.std.specs.Prelude.{◌+◌, ◌<◌, ◌≡◌, ◌≤◌, IfOk, if◌then◌else◌};

use crate::failure::End;
use crate::played::Played;
use crate::playing::Terms;
use crate::shortening::Shortening;
use std::alloc::{AllocError, Global};

/// The orders of a search so far.
#[derive(Drop)]
pub struct Search {
    pub orders: u64,
    pub failing: u64,
    pub cut: u64,
    /// The first that failed.
    pub found: Option<Shortening>,
    ghost failing_few: { failing ≤ orders },
    ghost cut_few: { cut ≤ orders },
    ghost first: { ForSome found (λ s. s.failure.number < orders) },
    ghost none: { ForNone found (failing ≡ 0) },
}

impl Search {
    /// None was played yet.
    pub fn new() -> Self
        ensures { (result.orders ≡ 0) × (result.failing ≡ 0) × (result.cut ≡ 0) }
    {
        Search {
            orders: 0,
            failing: 0,
            cut: 0,
            found: None,
        }
    }

    /// One more was played; astray, if it had other calls to choose from than the one before.
    pub fn count(
        &mut self,
        alloc: Global,
        terms: Terms,
        played: Played,
        is_astray: bool,
    ) -> Result<(), AllocError>
        requires { self.old.orders < u64.MAX }
        ensures orders { IfOk result (λ _. self.new.orders ≡ self.old.orders + 1) }
        ensures failing { IfOk result (λ _. self.new.failing ≡ self.old.failing + (if is_wrong played.end then 1 else 0)) }
        ensures cut { IfOk result (λ _. self.old.cut + (if is_cut played.end then 1 else 0) ≤ self.new.cut) }
    {
        let number = self.orders;
        let end = played.end();
        self.orders = number + 1;
        if end == End::Cut || is_astray {
            self.cut += 1;
        }
        if end == End::Wrong && self.found.is_none() {
            self.found = Some(Shortening::new(alloc, number, terms, played)?);
        } else {
            drop(played.into_order());
        }
        if end == End::Wrong {
            self.failing += 1;
        }
        Ok(())
    }
}
