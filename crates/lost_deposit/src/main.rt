//! A test of one's own futures in the orders that seeds draw, a program to start from. It plays the seeds 0 to 99 and writes the
//! first order that loses a deposit as a script, which `taskrun sim` plays; `lost_deposit SEED` that of one seed.
#![tactic(auto)]

use async_task::{Future, Poll, Wake};
use orders::{Beside, first_failure};
use std::alloc::{AllocGlobal, Global};
use std::cell::Cell;
use std::collections::VecDeque;
use std::ops::Range;
use std::rc::Rc;
use std::rt::Env;
use std::{env, io};

/// Adds 1 to an account, which it reads at its first poll and writes at its second. That is the bug.
#[derive(Drop)]
struct Deposit {
    account: Rc<Cell<u64>, Global>,
    read: Option<u64>,
}

impl<K: Wake> Future<K> for Deposit {
    type Output = u64;

    fn poll(&mut self, waker: &K) -> Poll<u64> {
        match self.read {
            None => {
                self.read = Some(self.account.get());
                waker.wake_by_ref();
                Poll::Pending
            }
            Some(read) => {
                let balance = read.saturating_add(1);
                self.account.set(balance);
                Poll::Ready(balance)
            }
        }
    }
}

/// The account that they share.
#[derive(Drop)]
struct Account(Rc<Cell<u64>, Global>);

/// It makes no steps of its own.
impl Beside for Account {
    fn may_step(&self) -> bool {
        false
    }

    fn step(&mut self) {}
}

const DEPOSITS: u64 = 2;

/// An account, and those who will deposit.
fn make(alloc: Global) -> io::Result<(VecDeque<Deposit>, Account)> {
    let account = Rc::new(alloc, Cell::new(0))?;
    let mut deposits = VecDeque::new(alloc);
    for _ in 0..DEPOSITS {
        deposits.push_back(Deposit {
            account: Rc::clone(&account)?,
            read: None,
        })?;
    }
    Ok((deposits, Account(account)))
}

fn main(rt: HostRuntime) -> io::Result<()> {
    match asked_seed(&rt)? {
        Some(seed) => show(&rt, seed..seed.saturating_add(1), true),
        None => show(&rt, 0..100, false),
    }
}

fn asked_seed<R: AllocGlobal + Env>(rt: &R) -> io::Result<Option<u64>> {
    match env::args(rt)?.nth(1) {
        Some(word) => Ok(word.parse().ok()),
        None => Ok(None),
    }
}

/// Shows the first order that loses a deposit, or the first of all.
fn show<R: AllocGlobal + Eprint + Print>(
    rt: &R,
    seeds: Range<u64>,
    is_any: bool,
) -> io::Result<()> {
    let alloc = rt.alloc();
    // The balance at the first end that is refused.
    let balance = Cell::new(None);
    let check = |account: &Account| {
        let is_right = account.0.get() == DEPOSITS && !is_any;
        if !is_right && balance.get().is_none() {
            balance.set(Some(account.0.get()));
        }
        is_right
    };
    let Some(failure) = first_failure(alloc, seeds, || make(alloc), check)? else {
        return eprintln!(rt; "no deposit is lost");
    };
    let seed = failure.number;
    eprintln!(rt;
        "seed {seed}: the balance is {}",
        balance.get().unwrap_or(0)
    )?;
    match failure.script(alloc)? {
        Some(script) => print!(rt; "{script}"),
        None => eprintln!(rt; "{failure}"),
    }
}
