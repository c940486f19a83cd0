//! A program of a row, as `orders` plays it.

use crate::player::Player;
use crate::rows::acts_of;
use crate::world::{Outcome, Setting, WaitingRuntime};
use orders::{
    Every, Extra, Failure, Hands, Limit, every_failure, fails_again, first_failure_among,
};
use std::alloc::Global;
use std::collections::VecDeque;
use std::io;
use std::ops::Range;

// More calls than an order of any row has, and more orders than any row.
const MOST_CALLS: usize = 100;

const MOST_ORDERS: u64 = 10_000;

/// A program, and what stands there at its right end.
#[derive(Clone, Copy, Drop)]
pub struct Program<R: WaitingRuntime, N: Hands + Copy + Drop> {
    pub rt: R,
    pub alloc: Global,
    pub now: N,
    /// Which row, and which of its forms.
    pub row: usize,
    pub is_mended: bool,
    pub extra: Extra,
    pub right: Outcome,
}

type Setup<R, N> = (VecDeque<Player<R, N>>, Setting<R, N>);

/// The players of one form of a row's program, in a new world.
fn make<R: WaitingRuntime, N: Hands + Copy + Drop>(
    rt: R,
    alloc: Global,
    now: N,
    row: usize,
    is_mended: bool,
) -> io::Result<Setup<R, N>> {
    let setting = Setting::new(rt, alloc, now)?;
    let mut players = VecDeque::new(alloc);
    for number in 0..3usize {
        let acts = acts_of(alloc, row, is_mended, number)?;
        if !acts.is_empty() {
            players.push_back(Player::new(setting.world.clone()?, acts))?;
        }
    }
    Ok((players, setting))
}

impl<R: WaitingRuntime, N: Hands + Copy + Drop> Program<R, N> {
    /// By seeds.
    pub fn first(&self, seeds: Range<u64>) -> io::Result<Option<Failure>> {
        let (rt, alloc, now) = (self.rt, self.alloc, self.now);
        let (row, is_mended, right) = (self.row, self.is_mended, self.right);
        first_failure_among(
            alloc,
            seeds,
            self.extra,
            || make(rt, alloc, now, row, is_mended),
            |setting: &Setting<R, N>| setting.outcome() == right,
        )
    }

    /// By all orders.
    pub fn every(&self) -> io::Result<Every> {
        let (rt, alloc, now) = (self.rt, self.alloc, self.now);
        let (row, is_mended, right) = (self.row, self.is_mended, self.right);
        let limit = Limit {
            calls: MOST_CALLS,
            orders: MOST_ORDERS,
            extra: self.extra,
        };
        every_failure(
            alloc,
            limit,
            || make(rt, alloc, now, row, is_mended),
            |setting: &Setting<R, N>| setting.outcome() == right,
        )
    }

    /// The short form once more.
    pub fn again(&self, failure: &Failure) -> io::Result<bool> {
        let (rt, alloc, now) = (self.rt, self.alloc, self.now);
        let (row, is_mended, right) = (self.row, self.is_mended, self.right);
        fails_again(
            alloc,
            failure,
            || make(rt, alloc, now, row, is_mended),
            |setting: &Setting<R, N>| setting.outcome() == right,
        )
    }
}
