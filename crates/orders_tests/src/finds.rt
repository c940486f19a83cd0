//! Each bug is found by seeds and among all orders, and in its mended form nothing is.

use crate::program::Program;
use crate::rows::{ROW_COUNT, Row, row_at};
use crate::world::WaitingRuntime;
use orders::{Failure, Hands};
use std::alloc::Global;
use std::cell::Cell;
use std::io::{self, ErrorKind};

/// What seeds find in a program.
#[derive(Clone, Copy, Debug, PartialEq, Eq, Drop)]
struct Found {
    seed: u64,
    calls: usize,
    short: usize,
    /// Its seed alone finds the same calls again.
    is_same: bool,
    /// The short form fails once more.
    fails_again: bool,
}

/// What a search through all orders comes to.
#[derive(Clone, Copy, Debug, PartialEq, Eq, Drop)]
struct Searched {
    orders: u64,
    failing: u64,
    is_all: bool,
    /// Whether the short form of the first failure fails once more. None, if no order fails.
    fails_again: Option<bool>,
}

/// The row at this place.
fn row_of(at: usize) -> io::Result<Row> {
    match row_at(at) {
        Some(row) => Ok(row),
        None => Err(ErrorKind::NotFound.into()),
    }
}

/// One form of the program of the row at this place.
fn program_of<R: WaitingRuntime, N: Hands + Copy + Drop>(
    rt: R,
    alloc: Global,
    now: N,
    at: usize,
    is_mended: bool,
) -> io::Result<Program<R, N>> {
    let row = row_of(at)?;
    Ok(Program {
        rt,
        alloc,
        now,
        row: at,
        is_mended,
        extra: row.extra,
        right: row.right,
    })
}

/// Whether two failures have the same calls, and the same short forms.
fn is_same(one: &Failure, other: &Failure) -> bool {
    one.found.made.as_slice() == other.found.made.as_slice()
        && one.short.made.as_slice() == other.short.made.as_slice()
}

/// What the seeds below 1,000 find.
fn find<R: WaitingRuntime, N: Hands + Copy + Drop>(
    program: &Program<R, N>,
) -> io::Result<Option<Found>> {
    let Some(failure) = program.first(0..1_000)? else {
        return Ok(None);
    };
    let seed = failure.number;
    let is_same = match program.first(seed..seed.saturating_add(1))? {
        Some(other) => is_same(&failure, &other),
        None => false,
    };
    Ok(Some(Found {
        seed,
        calls: failure.found.made.len(),
        short: failure.short.made.len(),
        is_same,
        fails_again: program.again(&failure)?,
    }))
}

/// What all orders come to.
fn search<R: WaitingRuntime, N: Hands + Copy + Drop>(
    program: &Program<R, N>,
) -> io::Result<Searched> {
    let every = program.every()?;
    let fails_again = match &every.failure {
        Some(failure) => Some(program.again(failure)?),
        None => None,
    };
    Ok(Searched {
        orders: every.orders,
        failing: every.failing,
        is_all: every.is_all(),
        fails_again,
    })
}

/// A clock for all plays.
fn clock(alloc: Global) -> io::Result<&'static Cell<u64>> {
    Ok(Box::leak(Box::new(alloc, Cell::new(0))?))
}

#[test]
fn seeds_find_each_bug(rt: HostRuntime) -> io::Result<()> {
    let now = clock(rt.alloc())?;
    for at in 0..ROW_COUNT {
        let row = row_of(at)?;
        let program = program_of(rt, rt.alloc(), now, at, false)?;
        let right = Found {
            seed: row.seed,
            calls: row.calls,
            short: row.short,
            is_same: true,
            fails_again: true,
        };
        assert_eq!(rt; find(&program)?, Some(right), "{}", row.name);
    }
    Ok(())
}

#[test]
fn all_orders_have_each_bug(rt: HostRuntime) -> io::Result<()> {
    let now = clock(rt.alloc())?;
    for at in 0..ROW_COUNT {
        let row = row_of(at)?;
        let program = program_of(rt, rt.alloc(), now, at, false)?;
        let right = Searched {
            orders: row.orders,
            failing: row.failing,
            is_all: true,
            fails_again: Some(true),
        };
        assert_eq!(rt; search(&program)?, right, "{}", row.name);
    }
    Ok(())
}

#[test]
fn mended_forms_have_none(rt: HostRuntime) -> io::Result<()> {
    let now = clock(rt.alloc())?;
    for at in 0..ROW_COUNT {
        let row = row_of(at)?;
        let program = program_of(rt, rt.alloc(), now, at, true)?;
        let right = Searched {
            orders: row.mended_orders,
            failing: 0,
            is_all: true,
            fails_again: None,
        };
        assert_eq!(rt; search(&program)?, right, "{}", row.name);
    }
    Ok(())
}

#[test]
fn mended_forms_bear_strays_and_refusals(rt: HostRuntime) -> io::Result<()> {
    let now = clock(rt.alloc())?;
    for at in 0..ROW_COUNT {
        let row = row_of(at)?;
        let mut program = program_of(rt, rt.alloc(), now, at, true)?;
        program.extra.strays = 1;
        program.extra.refusals = 1;
        assert!(rt; program.first(0..50)?.is_none(), "{}", row.name);
    }
    Ok(())
}
