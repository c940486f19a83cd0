//! All orders of a small program.
ghost use Rattle.orders.specs.Ends.{WerePlayed};
ghost use Rattle.std.specs.Fn.{CalledAt};
ghost use Rattle.std.specs.Prelude.{◌≡◌, ◌<◌, ◌↔◌, IfNone, IfOk, IfSome, IsTrue};

use crate::asking::Asking;
use crate::beside::Beside;
use crate::calls::Extra;
use crate::failure::Failure;
use crate::path::Path;
use crate::playing::{Terms, play};
use crate::search::Search;
use crate::shortening::shorten;
use async_task::Future;
use std::alloc::Global;
use std::collections::VecDeque;
use std::fmt::Debug;
use std::io;

/// How far a search through all orders goes.
#[derive(Clone, Copy, Drop)]
pub struct Limit {
    /// How many calls an order may have: one that could go on then is cut, and not checked.
    pub calls: usize,
    /// How many orders are played.
    pub orders: u64,
    /// Which calls beside those of every executor an order is allowed.
    pub extra: Extra,
}

/// What a search through all orders came to.
#[derive(Drop)]
pub struct Every {
    /// How many orders were played, without those that shorten the failure.
    pub orders: u64,
    /// How many of them failed.
    pub failing: u64,
    /// How many were cut; also, how many were played once a play had other calls to choose from than the one before, as where `make`
    /// makes something else.
    pub cut: u64,
    /// How many orders are known that weren't played. Each may lead to more.
    pub left: usize,
    /// The first that failed.
    pub failure: Option<Failure>,
}

impl Every {
    /// Whether all orders were played to their ends: none was cut, and no choice was left.
    pub fn is_all(&self) -> bool
        ensures { IsTrue result ↔ ((self.now.cut ≡ 0) × (self.now.left ≡ 0)) }
    {
        self.cut == 0 && self.left == 0
    }
}

/// Plays the futures that `make` makes in all orders, up to a limit, as `first_failure` plays them in those of seeds. It goes on
/// behind the first that fails, to count those that do.
///
/// It takes memory, and answers an error where that is refused, or `make` answers one.
pub fn every_failure<F, T, X, M, C>(
    alloc: Global,
    limit: Limit,
    mut make: M,
    mut check: C,
) -> io::Result<Every>
where
    T: Debug + Drop,
    F: Future<Asking, Output = T> + Drop,
    X: Beside + Drop,
    M: FnMut() -> io::Result<(VecDeque<F>, X)>,
    C: FnMut(&X) -> bool,
    requires make { M.IsAlwaysCallable make }
    requires check { C.IsAlwaysCallable check }
    ensures played { IfOk result (λ every. WerePlayed (CalledAt C.FnMut) check every.orders every.failing every.cut) }
    ensures most { IfOk result (λ every. every.orders < limit.orders → every.left ≡ 0) }
    ensures left { IfOk result (λ every. every.left ≡ 0 → 0 < every.orders) }
    ensures none { IfOk result (λ every. IfNone every.failure (every.failing ≡ 0)) }
    ensures number { IfOk result (λ every. IfSome every.failure (λ failure. failure.number < limit.orders)) }
{
    let terms = Terms {
        most: limit.calls,
        extra: limit.extra,
    };
    let mut path = Path::new(alloc);
    let mut search = Search::new();
    while path.is_due() && search.orders < limit.orders {
        let played = play(alloc, terms, &mut path, &mut make, &mut check)?;
        search.count(alloc, terms, played, path.is_astray())?;
        path.advance()?;
    }
    let Search {
        orders,
        failing,
        cut,
        found,
    } = search;
    let failure = match found {
        Some(found) => Some(shorten(found, make, check)?),
        None => None,
    };
    Ok(Every {
        orders,
        failing,
        cut,
        left: path.left(),
        failure,
    })
}
