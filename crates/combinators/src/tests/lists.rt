//! Many futures in the order in which they are done: in each order of three, dropped at each point, without memory, and with threads
//! that make them ready.
use crate::FuturesUnordered;
use crate::tests::children::{Child, Seen};
use async_task::{Nobody, Poll};
use blocking::{ThreadWaker, block_on};
use std::alloc::Global;
use std::sync::Wait;
use std::{io, thread};
use waiting::oneshot::{self, Receiver, Sender};
use waiting::ready;

#[test]
fn the_example(rt: HostRuntime) {
    let mut futures = FuturesUnordered::new(rt.alloc());
    assert!(rt; matches!(futures.push(ready(7u64)), Ok(0)));
    assert!(rt; matches!(futures.push(ready(8u64)), Ok(1)));
    assert!(rt; matches!(futures.poll_next(&Nobody), Poll::Ready(Some((0, 7)))));
    assert!(rt; matches!(futures.poll_next(&Nobody), Poll::Ready(Some((1, 8)))));
    assert!(rt; matches!(futures.poll_next(&Nobody), Poll::Ready(None)));
}

/// Puts a child there. Where there is no memory it comes back as it was, and is put there again.
fn push<'a>(futures: &mut FuturesUnordered<Child<'a>>, child: Child<'a>, want: u64) -> bool {
    let before = futures.len();
    let pushed = match futures.push(child) {
        Ok(number) => Some(number),
        Err(back) if futures.len() == before => futures.push(back).ok(),
        Err(_) => None,
    };
    (pushed == Some(want)) & (futures.len() == before.saturating_add(1))
}

/// Three children, each with its number, and one that is put there once one of them is done.
fn are_done_in_order(alloc: Global, waits: [u64; 3], polls: u64) -> bool {
    let [one, two, three] = waits;
    let seen = [Seen::new(), Seen::new(), Seen::new()];
    let [first, second, third] = &seen;
    let mut futures = FuturesUnordered::new(alloc);
    let mut is_well = push(&mut futures, Child::new(first, one), 0)
        & push(&mut futures, Child::new(second, two), 1)
        & push(&mut futures, Child::new(third, three), 2);
    let mut last = (0u64, 0u64);
    let mut done = 0u64;
    for _ in 0..polls {
        match futures.poll_next(&Nobody) {
            Poll::Ready(Some((number, wait))) => {
                let at = match number {
                    0 => one,
                    1 => two,
                    _ => three,
                };
                is_well &= (at == wait) & ((done == 0) | (last < (wait, number)));
                last = (wait, number);
                done = done.saturating_add(1);
            }
            Poll::Ready(None) => is_well &= done == 3,
            Poll::Pending => is_well &= done < 3,
        }
    }
    is_well &= (polls < POLLS) | (done == 3);
    drop(futures);
    for (one, wait) in seen.iter().zip(&waits) {
        is_well &= one.is_gone(done == 3, *wait);
    }
    is_well
}

/// By which three children are done, and one poll more: three that are ready, and two in which none is.
const POLLS: u64 = 6;

#[test]
fn each_is_done_in_its_turn(rt: HostRuntime) {
    for digits in 0..27 {
        let waits = [digits % 3, digits / 3 % 3, digits / 9 % 3];
        for polls in 0..=POLLS {
            assert!(rt;
                are_done_in_order(rt.alloc(), waits, polls),
                "at {digits}, {polls} polls"
            );
        }
    }
}

/// How many are awaited.
const ALL: u64 = 300;

/// How many values came, each with its number, and how many senders went without one.
fn awaits_all<R: Wait + Copy + Drop>(
    rt: &R,
    alloc: Global,
    futures: FuturesUnordered<Receiver<u64, ThreadWaker, R>>,
) -> (u64, u64) {
    let mut futures = futures;
    let (mut came, mut went) = (0u64, 0u64);
    for _ in 0..ALL {
        match block_on::<ThreadWaker, _, _>(rt, alloc, futures.next()) {
            Ok(Some((number, Ok(value)))) if number == value => came = came.saturating_add(1),
            Ok(Some((_number, Err(_)))) => went = went.saturating_add(1),
            _ => return (came, went),
        }
    }
    (came, went)
}

/// Sends each its number, and lets each third go.
fn sends<R: Wait + Copy + Drop>(senders: Vec<(u64, Sender<u64, ThreadWaker, R>)>) -> u64 {
    let mut sent = 0u64;
    for (number, sender) in senders {
        if number % 3 == 0 {
            drop(sender);
        } else {
            sent = sent.saturating_add(sender.send(number).is_ok() as u64);
        }
    }
    sent
}

/// Two threads send while one awaits all.
#[test]
fn each_value_comes_once(rt: HostRuntime) -> io::Result<()> {
    let alloc = rt.alloc();
    let mut futures = FuturesUnordered::new(alloc);
    let (mut even, mut odd) = (Vec::new(alloc), Vec::new(alloc));
    for number in 0..ALL {
        let (sender, receiver) = oneshot::channel::<u64, ThreadWaker, _>(rt, alloc)?;
        assert!(rt; futures.push(receiver).is_ok());
        if number % 2 == 0 {
            even.push((number, sender))?;
        } else {
            odd.push((number, sender))?;
        }
    }
    let send = || thread::join(&rt, || sends(even), || sends(odd));
    let (ended, sent) = thread::join(&rt, || awaits_all(&rt, alloc, futures), send);
    assert!(rt; (ended == (200, 100)) & (sent == (100, 100)));
    Ok(())
}
