//! The newest of values, by public calls: in each order on one thread, beside a model, and between threads.
mod orders;

use crate::scene::{Scene, played};
use async_lock::watch::{self, Receiver, RecvError, Sender};
use async_task::{Future, Nobody, Poll};
use blocking::{ThreadWaker, block_on};
use std::alloc::Global;
use std::io;
use std::sync::{Mutex, Wait};

/// The example of the doc comment, and by the future. Dropped, that waits no more.
fn the_example<R: Wait + Copy + Drop>(rt: R, alloc: Global) -> io::Result<bool> {
    let (sender, mut receiver) = watch::channel::<u64, Nobody, R>(rt, alloc, 1)?;
    let waits = matches!(receiver.poll_changed(&Nobody), Poll::Pending);
    let sent = sender.send(2).is_ok() & sender.send(3).is_ok();
    let once = matches!(receiver.changed().poll(&Nobody), Poll::Ready(Ok(())));
    let newest = receiver.borrow()?;
    let waits = waits & matches!(receiver.changed().poll(&Nobody), Poll::Pending);
    drop(sender);
    let closed = matches!(
        receiver.changed().poll(&Nobody),
        Poll::Ready(Err(RecvError::Closed))
    );
    Ok(waits & sent & once & (*newest == 3) & closed)
}

#[test]
fn the_newest_is_seen(rt: HostRuntime) -> io::Result<()> {
    assert!(rt; the_example(rt, rt.alloc())?);
    Ok(())
}

/// One thread that sends, and others that follow.
#[derive(Drop)]
struct Following<R: Wait + Copy + Drop> {
    rt: R,
    alloc: Global,
    /// Until it has sent all.
    sender: Mutex<Option<Sender<u64, ThreadWaker, R>>>,
    receiver: Receiver<u64, ThreadWaker, R>,
}

impl<R: Wait + Copy + Drop> Following<R> {
    fn new(rt: R, alloc: Global) -> io::Result<Following<R>> {
        let (sender, receiver) = watch::channel(rt, alloc, 0)?;
        Ok(Following {
            rt,
            alloc,
            sender: Mutex::new(Some(sender)),
            receiver,
        })
    }

    /// Sends 1 to 500, and goes. How many it sent.
    fn sends(&self) -> u64 {
        let sender = self.sender.lock(&self.rt).take();
        let Some(sender) = sender else {
            return 0;
        };
        let mut sent = 0u64;
        for number in 1..=500 {
            sent = sent.saturating_add(sender.send(number).is_ok() as u64);
        }
        sent
    }

    /// The next that it sees, until none comes any more.
    fn sees(&self, receiver: &mut Receiver<u64, ThreadWaker, R>) -> Option<u64> {
        let awaited = block_on::<ThreadWaker, _, _>(&self.rt, self.alloc, receiver.changed());
        let has_changed = matches!(awaited, Ok(Ok(())));
        drop(awaited);
        if !has_changed {
            return None;
        }
        match receiver.borrow_and_update() {
            Ok(newest) => Some(*newest),
            Err(_) => None,
        }
    }

    /// The last that it sees; 0 where what it saw didn't ascend.
    fn follows(&self) -> u64 {
        let Ok(mut receiver) = self.receiver.clone() else {
            return 0;
        };
        let mut last = 0u64;
        for _ in 0..=500 {
            match self.sees(&mut receiver) {
                Some(newest) if newest > last => last = newest,
                Some(_) => return 0,
                None => return last,
            }
        }
        0
    }
}

impl<R: Wait + Copy + Drop> Scene for Following<R> {
    fn act(&self, part: usize) -> u64 {
        if part == 0 {
            self.sends()
        } else {
            self.follows()
        }
    }
}

/// One sends 1 to 500 while three follow. What each sees ascends, and ends in the last.
#[test]
fn what_is_seen_ascends(rt: HostRuntime) -> io::Result<()> {
    let following = Following::new(rt, rt.alloc())?;
    assert!(rt; played(&rt, rt.alloc(), &following, 4) == 2_000);
    Ok(())
}
