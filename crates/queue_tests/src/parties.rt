//! Parties that play their roles on one queue, each in a thread of its own, and how what they did adds up. One that goes
//! round more than `MOST_TURNS` times fails its test.
use crate::words::{holds, queue_of, same};
use concurrent_queue::{ConcurrentQueue, ForcePushError, PopError, PushError};
use std::alloc::AllocGlobal;
use std::process::Abort;
use std::sync::Wait;
use std::sync::atomic::{AtomicU64, Ordering};
use std::thread::{self, Threads};

const MOST_TURNS: u64 = 10_000_000;

// How often a party goes round that takes out what it puts in.
const ROUNDS: u64 = 25_000;

// How often a party calls a queue that it saw closed.
const LATE: u64 = 100;

// The numbers of a party begin so far after those of the party before it.
const APART: u64 = 1 << 40;

/// What a party does.
#[derive(Clone, Copy)]
pub enum Role {
    /// Pushes until so many are accepted or the queue is closed.
    Push { most: u64 },
    /// Pops until it has so many or the queue is closed.
    Pop { most: u64 },
    /// Each round pushes a number and takes one out: what it displaced by force, or else what it pops, which is there.
    PushAndTake { by_force: bool },
    /// Pushes by force until the queue is closed, and closes it itself after so many.
    Force { closes_after: u64 },
    /// Closes the queue once so many were pushed until it is closed.
    Close { load: u64 },
}

// A queue, and how many were pushed until it is closed.
#[derive(Drop)]
struct Game {
    queue: ConcurrentQueue<u64>,
    pushed: AtomicU64,
}

// What a party did: how many of its numbers, from its first one on, were accepted, what it took out, and how many of its
// closes closed the queue.
#[derive(Drop)]
struct Part {
    first: u64,
    accepted: u64,
    taken: Vec<u64>,
    closed: u64,
}

impl Part {
    // The number that is pushed next.
    fn next(&self) -> u64 {
        self.first.wrapping_add(self.accepted)
    }

    fn accept(&mut self, game: &Game) {
        self.accepted = self.accepted.wrapping_add(1);
        game.pushed.fetch_add(1, Ordering::SeqCst);
    }

    fn take<R: Abort>(&mut self, rt: &R, number: u64) {
        self.taken.push(number).expect(rt, "memory");
    }
}

// Who saw the queue closed, by any answer, sees it so ever after.
fn refuses<R: Wait + Abort>(rt: &R, queue: &ConcurrentQueue<u64>) {
    for late in 0..LATE {
        same(rt, queue.push(rt, late), Err(PushError::Closed(late)));
        let forced = queue.force_push(rt, late);
        same(rt, forced, Err(ForcePushError::Closed(late)));
        holds(rt, queue.is_closed(rt) && !queue.close(rt));
    }
}

fn gives_no_more<R: Wait + Abort>(rt: &R, queue: &ConcurrentQueue<u64>) {
    for _ in 0..LATE {
        same(rt, queue.pop(rt), Err(PopError::Closed));
        holds(rt, queue.is_empty(rt));
    }
}

// Pushes the next number, and says whether the queue was seen closed.
fn push<R: Wait + Abort>(rt: &R, game: &Game, part: &mut Part) -> bool {
    match game.queue.push(rt, part.next()) {
        Ok(()) => part.accept(game),
        Err(refused) if refused.is_full() => thread::yield_now(),
        Err(refused) => {
            same(rt, refused, PushError::Closed(part.next()));
            refuses(rt, &game.queue);
            return true;
        }
    }
    false
}

// Takes a number out, and says whether the queue was seen closed.
fn pop<R: Wait + Abort>(rt: &R, game: &Game, part: &mut Part) -> bool {
    match game.queue.pop(rt) {
        Ok(number) => part.take(rt, number),
        Err(PopError::Empty) => thread::yield_now(),
        Err(PopError::Closed) => {
            gives_no_more(rt, &game.queue);
            return true;
        }
    }
    false
}

// Pushes the next number by force, and says whether the queue was seen closed.
fn force<R: Wait + Abort>(rt: &R, game: &Game, part: &mut Part) -> bool {
    match game.queue.force_push(rt, part.next()) {
        Ok(displaced) => {
            if let Some(number) = displaced {
                part.take(rt, number);
            }
            part.accept(game);
            false
        }
        Err(refused) => {
            same(rt, refused, ForcePushError::Closed(part.next()));
            refuses(rt, &game.queue);
            true
        }
    }
}

fn push_and_take<R: Wait + Abort>(rt: &R, game: &Game, part: &mut Part, by_force: bool) {
    let displaced = if by_force {
        game.queue.force_push(rt, part.next()).expect(rt, "open")
    } else {
        same(rt, game.queue.push(rt, part.next()), Ok(()));
        None
    };
    part.accept(game);
    let taken = match displaced {
        Some(oldest) => oldest,
        None => game.queue.pop(rt).expect(rt, "an item is there"),
    };
    part.take(rt, taken);
}

// A party takes a turn, and says whether it was its last.
fn is_over<R: Wait + Abort>(rt: &R, game: &Game, part: &mut Part, role: Role) -> bool {
    match role {
        Role::Push { most } => part.accepted == most || push(rt, game, part),
        Role::Pop { most } => part.taken.len() as u64 == most || pop(rt, game, part),
        Role::PushAndTake { by_force } => {
            push_and_take(rt, game, part, by_force);
            part.accepted == ROUNDS
        }
        Role::Force { closes_after } => {
            if part.accepted == closes_after {
                part.closed = u64::from(game.queue.close(rt));
            }
            force(rt, game, part)
        }
        Role::Close { load } => {
            if game.pushed.load(Ordering::SeqCst) < load {
                thread::yield_now();
                return false;
            }
            part.closed = u64::from(game.queue.close(rt));
            true
        }
    }
}

// What a party does in its thread.
fn play<R: Wait + Abort + AllocGlobal>(rt: &R, game: &Game, party: usize, role: Role) -> Part {
    let mut part = Part {
        first: APART.wrapping_mul(party as u64),
        accepted: 0,
        taken: Vec::new(rt.alloc()),
        closed: 0,
    };
    for _ in 0..MOST_TURNS {
        if is_over(rt, game, &mut part, role) {
            return part;
        }
    }
    panic!(rt; "no end of turns");
}

// All numbers that were taken out are all that were accepted.
fn nothing_is_lost<R: Abort + AllocGlobal>(rt: &R, parts: &[Part]) {
    let mut taken = Vec::new(rt.alloc());
    for part in parts {
        let all = taken.extend_from_slice(part.taken.as_slice());
        all.expect(rt, "memory");
    }
    taken.sort().expect(rt, "memory");
    let mut numbers = taken.iter();
    for part in parts {
        for number in part.first..part.next() {
            same(rt, numbers.next().copied(), Some(number));
        }
    }
    same(rt, numbers.next().copied(), None);
}

// What a party took out of another's numbers came in the order in which that one pushed them.
fn comes_in_order<R: Abort>(rt: &R, taken: &[u64], pushed_by: &Part) {
    let mut least = pushed_by.first;
    for number in taken {
        if *number / APART == pushed_by.first / APART {
            holds(rt, least <= *number);
            least = number.wrapping_add(1);
        }
    }
}

// What they did adds up, and so many closes closed the queue.
fn add_up<R: Abort + AllocGlobal>(rt: &R, parts: &[Part], closed: u64) {
    nothing_is_lost(rt, parts);
    let mut closes = 0u64;
    for part in parts {
        closes = closes.wrapping_add(part.closed);
        for other in parts {
            comes_in_order(rt, part.taken.as_slice(), other);
        }
    }
    same(rt, closes, closed);
}

fn is_shared<Q: Send + Sync>(_queue: &Q) {}

/// The roles are played at the same time on a queue of each capacity (0 for a chain), each in a thread of its own. What they
/// did adds up, the queue is empty then, and closed where a party closes it.
pub fn all_play<R: Wait + Abort + AllocGlobal + Threads + Sync>(
    rt: &R,
    capacities: &[usize],
    roles: &[Role],
    closed: u64,
) {
    for capacity in capacities {
        let queue = queue_of(rt, *capacity);
        is_shared(&queue);
        let pushed = AtomicU64::new(0);
        let game = Game { queue, pushed };
        let play = &|party| { play(rt, &game, party, roles[party]) };
        let parts = thread::map_indices(rt, rt.alloc(), roles.len(), play);
        let parts = parts.expect(rt, "memory");
        same(rt, parts.len(), roles.len());
        add_up(rt, &parts, closed);
        let none = game.queue.pop(rt).err().map(|none| none.is_closed());
        same(rt, none, Some(closed != 0));
        same(rt, game.queue.is_closed(rt), closed != 0);
        holds(rt, game.queue.is_empty(rt));
    }
}
