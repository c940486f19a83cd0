//! Every order of the sections of two sources' events and three tasks' polls. An order is followed until it comes to a state in
//! which another has been.
use crate::game::At::{First, Second, Third};
use crate::game::{Game, PARTIES, Party, Row};
use crate::words::holds;
use std::alloc::AllocGlobal;
use std::collections::HashSet;
use std::process::Abort;

// More orders than any row has.
const MOST_ORDERS: u64 = 1_000_000;

// More steps than any order has.
const MOST_STEPS: usize = 200;

/// The one of those who may take a step that takes it, and how many may.
#[derive(Clone, Copy, Drop)]
struct Choice {
    party: Option<Party>,
    taken: usize,
    of: usize,
}

/// How far the search is: which choices the present order makes, the states that were come to, and how many orders were played
/// to their end.
#[derive(Drop)]
struct Search {
    choices: Vec<Choice>,
    states: HashSet<u64>,
    ends: u64,
}

/// The party that is taken of those who may take a step, and how many may.
fn party_of(game: &Game, taken: usize) -> (Option<Party>, usize) {
    let mut open = 0usize;
    let mut party = None;
    for one in PARTIES {
        if game.may(one) {
            if open == taken {
                party = Some(one);
            }
            open = open.saturating_add(1);
        }
    }
    (party, open)
}

impl Search {
    /// Who takes the next step, by the choice that was made here, or the first. None may where the order has come to its end.
    fn choose<R: Abort>(&mut self, rt: &R, game: &Game, at: usize) -> Option<Party> {
        let made = self.choices.get(at).copied();
        if let Some(
            Choice {
                party: Some(party),
                ..
            },
        ) = made
        {
            return Some(party);
        }
        let taken = made.map_or(0, |choice| choice.taken);
        let (party, of) = party_of(game, taken);
        if party.is_some() {
            self.choices.truncate(at);
            let choice = Choice { party, taken, of };
            self.choices.push(choice).expect(rt, "memory");
        }
        party
    }

    /// Plays one order, as the choices say and then always the first, to its end or to a state in which another has been.
    fn play<R: AllocGlobal + Abort>(&mut self, rt: &R, row: &Row, number: usize) {
        let mut game = Game::new(rt, row);
        for at in 0..MOST_STEPS {
            let is_last = at.saturating_add(1) >= self.choices.len();
            let Some(party) = self.choose(rt, &game, at) else {
                game.is_played(rt, row.over, number);
                self.ends = self.ends.saturating_add(1);
                break;
            };
            game.step(rt, party, number);
            if is_last && !self.states.insert(game.sum()).expect(rt, "memory") {
                break;
            }
        }
        game.end();
    }

    /// Goes on to the next order. Answers whether there is one.
    fn next<R: Abort>(&mut self, rt: &R) -> bool {
        for _ in 0..MOST_STEPS {
            let Some(last) = self.choices.pop() else {
                return false;
            };
            let taken = last.taken.saturating_add(1);
            if taken < last.of {
                let next = Choice {
                    party: None,
                    taken,
                    of: last.of,
                };
                self.choices.push(next).expect(rt, "memory");
                return true;
            }
        }
        false
    }
}

/// Plays all orders of a row. It has so many states, so the search saw all.
fn plays<R: AllocGlobal + Abort>(rt: &R, row: &Row, number: usize) {
    let mut search = Search {
        choices: Vec::new(rt.alloc()),
        states: HashSet::new(rt.alloc()),
        ends: 0,
    };
    for _ in 0..MOST_ORDERS {
        search.play(rt, row, number);
        if !search.next(rt) {
            holds(rt, search.ends > 0, number);
            return;
        }
    }
    panic!(rt; "no end of orders");
}

const ROWS: [Row; 5] = [
    // A task each way, and something comes to each.
    Row {
        tasks: [First, Second, Third],
        come: [1, 1, 1],
        closes: [false, false, false],
        over: 3,
    },
    // Two tasks poll one way: one of them is called.
    Row {
        tasks: [First, First, Third],
        come: [2, 0, 1],
        closes: [false, false, false],
        over: 2,
    },
    // Three tasks poll one way.
    Row {
        tasks: [First, First, First],
        come: [3, 0, 0],
        closes: [false, false, false],
        over: 1,
    },
    // Nothing comes, and all is closed.
    Row {
        tasks: [First, Second, Third],
        come: [0, 0, 0],
        closes: [true, true, true],
        over: 3,
    },
    // Something comes to one of three tasks of one way, and all is closed.
    Row {
        tasks: [First, First, First],
        come: [1, 0, 0],
        closes: [true, false, false],
        over: 1,
    },
];

#[test]
fn nobody_waits_for_what_is_there(rt: HostRuntime) {
    for (number, row) in ROWS.iter().enumerate() {
        plays(&rt, row, number);
    }
}
