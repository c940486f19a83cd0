//! Eleven bugs, with the programs that have them, and as they are mended.
use crate::acts::Act::{
    self, Add, Await, AwaitOrSleep, Believe, Close, Done, Forget, Give, Listen, Note, Notify,
    NotifyAll, PassIfRaised, Raise, Read, Receive, Send, Sleep, Take, Write, Yield,
};
use crate::acts::Lock::{First, Second};
use crate::world::Outcome;
use orders::Extra;
use std::alloc::{AllocError, Global};

/// What two or three players do.
pub type Acts = [&'static [Act]; 3];

/// A program with a bug, and its mended form.
#[derive(Clone, Copy, Drop)]
pub struct Row {
    pub name: &'static str,
    pub extra: Extra,
    pub bad: Acts,
    pub mended: Acts,
    /// What stands there at a right end.
    pub right: Outcome,
    /// The first seed that finds the bug.
    pub seed: u64,
    /// How many calls the order of that seed has, and its short form.
    pub calls: usize,
    pub short: usize,
    /// How many orders the program with the bug has, and how many of them fail.
    pub orders: u64,
    pub failing: u64,
    /// How many orders the mended form has.
    pub mended_orders: u64,
}

const NONE: Extra = Extra {
    cancels: 0,
    leaves: 0,
    strays: 0,
    refusals: 0,
};

const ONE_CANCEL: Extra = Extra {
    cancels: 1,
    leaves: 0,
    strays: 0,
    refusals: 0,
};

const ONE_STRAY: Extra = Extra {
    cancels: 0,
    leaves: 0,
    strays: 1,
    refusals: 0,
};

/// What stands where so many are done, and no more is said.
const TWO: Outcome = Outcome {
    total: 0,
    log: 0,
    done: 2,
    free: 2,
    left: 0,
};

const THREE: Outcome = Outcome {
    total: 0,
    log: 0,
    done: 3,
    free: 2,
    left: 0,
};

/// How many rows there are.
pub const ROW_COUNT: usize = 11;

const ROWS: [Row; ROW_COUNT] = [
    Row {
        name: "a lost update",
        extra: NONE,
        bad: [
            &[Read, Yield, Write, Done],
            &[Read, Yield, Write, Done],
            &[],
        ],
        mended: [
            &[Take(First), Read, Yield, Write, Give(First), Done],
            &[Take(First), Read, Yield, Write, Give(First), Done],
            &[],
        ],
        right: Outcome {
            total: 2,
            log: 0,
            done: 2,
            free: 2,
            left: 0,
        },
        seed: 2,
        calls: 8,
        short: 8,
        orders: 14,
        failing: 12,
        mended_orders: 6,
    },
    Row {
        name: "a lost wake",
        extra: NONE,
        bad: [
            &[PassIfRaised(3), Yield, Listen, Await, Done],
            &[Raise, NotifyAll, Done],
            &[],
        ],
        mended: [
            &[Listen, PassIfRaised(2), Yield, Await, Done],
            &[Raise, NotifyAll, Done],
            &[],
        ],
        right: TWO,
        seed: 2,
        calls: 8,
        short: 8,
        orders: 12,
        failing: 4,
        mended_orders: 12,
    },
    Row {
        name: "a double send",
        extra: NONE,
        bad: [
            &[PassIfRaised(3), Yield, Raise, Send, Done],
            &[PassIfRaised(3), Yield, Raise, Send, Done],
            &[Receive, Done],
        ],
        mended: [
            &[PassIfRaised(3), Raise, Yield, Send, Done],
            &[PassIfRaised(3), Raise, Yield, Send, Done],
            &[Receive, Done],
        ],
        right: Outcome {
            total: 1,
            log: 0,
            done: 3,
            free: 2,
            left: 0,
        },
        seed: 2,
        calls: 12,
        short: 10,
        orders: 235,
        failing: 230,
        mended_orders: 28,
    },
    Row {
        name: "a deadlock of two locks",
        extra: NONE,
        bad: [
            &[Take(First), Yield, Take(Second), Done],
            &[Take(Second), Yield, Take(First), Done],
            &[],
        ],
        mended: [
            &[Take(First), Yield, Take(Second), Done],
            &[Take(First), Yield, Take(Second), Done],
            &[],
        ],
        right: TWO,
        seed: 2,
        calls: 12,
        short: 12,
        orders: 86,
        failing: 84,
        mended_orders: 6,
    },
    Row {
        name: "a message after close",
        extra: NONE,
        bad: [&[Yield, Send, Done], &[Close, Done], &[Receive, Done]],
        mended: [&[Yield, Send, Close, Done], &[Done], &[Receive, Done]],
        right: Outcome {
            total: 1,
            log: 0,
            done: 3,
            free: 2,
            left: 0,
        },
        seed: 2,
        calls: 8,
        short: 8,
        orders: 28,
        failing: 23,
        mended_orders: 28,
    },
    Row {
        name: "a permit lost by a cancel",
        extra: ONE_CANCEL,
        bad: [&[Forget(First), Yield, Add(First)], &[Yield], &[]],
        mended: [&[Take(First), Yield, Give(First)], &[Yield], &[]],
        right: Outcome {
            total: 0,
            log: 0,
            done: 0,
            free: 2,
            left: 0,
        },
        seed: 0,
        calls: 8,
        short: 8,
        orders: 101,
        failing: 39,
        mended_orders: 101,
    },
    Row {
        name: "a starved reader",
        extra: NONE,
        bad: [
            &[Yield, Raise, Notify, Done],
            &[Listen, PassIfRaised(1), Await, Done],
            &[Listen, PassIfRaised(1), Await, Done],
        ],
        mended: [
            &[Yield, Raise, NotifyAll, Done],
            &[Listen, PassIfRaised(1), Await, Done],
            &[Listen, PassIfRaised(1), Await, Done],
        ],
        right: THREE,
        seed: 2,
        calls: 10,
        short: 10,
        orders: 46,
        failing: 13,
        mended_orders: 85,
    },
    Row {
        name: "a timer that is forgotten",
        extra: NONE,
        bad: [&[Yield, Notify, Done], &[Listen, Sleep, Await, Done], &[]],
        mended: [
            &[Yield, Notify, Done],
            &[Listen, Sleep, AwaitOrSleep, Done],
            &[],
        ],
        right: TWO,
        seed: 0,
        calls: 7,
        short: 7,
        orders: 20,
        failing: 2,
        mended_orders: 40,
    },
    Row {
        name: "a wrong order",
        extra: NONE,
        bad: [&[Yield, Note(1), Done], &[Note(2), Done], &[]],
        mended: [
            &[Yield, Note(1), Raise, NotifyAll, Done],
            &[Listen, PassIfRaised(1), Await, Note(2), Done],
            &[],
        ],
        right: Outcome {
            total: 0,
            log: 12,
            done: 2,
            free: 2,
            left: 0,
        },
        seed: 2,
        calls: 6,
        short: 6,
        orders: 6,
        failing: 4,
        mended_orders: 6,
    },
    Row {
        name: "a drop too early",
        extra: NONE,
        bad: [
            &[Take(First), Read, Give(First), Yield, Write, Done],
            &[Take(First), Read, Give(First), Yield, Write, Done],
            &[],
        ],
        mended: [
            &[Take(First), Read, Yield, Write, Give(First), Done],
            &[Take(First), Read, Yield, Write, Give(First), Done],
            &[],
        ],
        right: Outcome {
            total: 2,
            log: 0,
            done: 2,
            free: 2,
            left: 0,
        },
        seed: 2,
        calls: 8,
        short: 8,
        orders: 14,
        failing: 12,
        mended_orders: 6,
    },
    Row {
        name: "a wake that nobody meant",
        extra: ONE_STRAY,
        bad: [
            &[Yield, Raise, NotifyAll, Done],
            &[
                Listen,
                PassIfRaised(3),
                Believe,
                PassIfRaised(1),
                Note(9),
                Done,
            ],
            &[],
        ],
        mended: [
            &[Yield, Raise, NotifyAll, Done],
            &[
                Listen,
                PassIfRaised(3),
                Await,
                PassIfRaised(1),
                Note(9),
                Done,
            ],
            &[],
        ],
        right: TWO,
        seed: 9,
        calls: 8,
        short: 8,
        orders: 31,
        failing: 4,
        mended_orders: 31,
    },
];

/// The row at this place. All ask here: each function that names the table is proved with a copy of it.
pub fn row_at(at: usize) -> Option<Row> {
    ROWS.get(at).copied()
}

/// What a player of a row does, in its mended form or with the bug. Nothing, if there is no such player.
pub fn acts_of(
    alloc: Global,
    row: usize,
    is_mended: bool,
    player: usize,
) -> Result<Vec<Act>, AllocError> {
    if let Some(row) = row_at(row) {
        let form = if is_mended { row.mended } else { row.bad };
        if let Some(acts) = form.get(player) {
            return copy_of(alloc, acts);
        }
    }
    Ok(Vec::new(alloc))
}

fn copy_of(alloc: Global, acts: &[Act]) -> Result<Vec<Act>, AllocError> {
    let mut copy = Vec::new(alloc);
    copy.extend_from_slice(acts)?;
    Ok(copy)
}
