//! Threads send and receive by one channel, and give up midway as a seed says: each message that was sent is received once, and
//! who stays isn't left waiting.
use crate::waits::total;
use async_task::{Future, Poll, Wake};
use blocking::{ThreadWaker, block_on};
use std::alloc::Global;
use std::sync::Wait;
use std::sync::atomic::AtomicU64;
use std::sync::atomic::Ordering::SeqCst;
use std::{io, thread};
use waiting::channel;
use waiting::channel::one_kind::{Receiver, Sender};

/// Numbers that a seed leads to.
#[derive(Drop)]
struct Draws(u64);

impl Draws {
    /// After how many polls one gives up: 0, 1, 2, or it stays.
    fn patience(&mut self) -> Option<u64> {
        self.0 = self
            .0
            .wrapping_mul(6_364_136_223_846_793_005)
            .wrapping_add(1_442_695_040_888_963_407);
        let polls = self.0 >> 62;
        if polls == 3 { None } else { Some(polls) }
    }
}

/// A future that is given up after so many polls that were pending, where there is a number.
#[derive(Drop)]
struct Hasty<F> {
    future: F,
    polls: Option<u64>,
}

impl<K: Wake, F: Future<K>> Future<K> for Hasty<F> {
    type Output = Option<F::Output>;

    fn poll(&mut self, waker: &K) -> Poll<Option<F::Output>> {
        if let Poll::Ready(output) = self.future.poll(waker) {
            return Poll::Ready(Some(output));
        }
        match self.polls {
            None => Poll::Pending,
            Some(0) => {
                // A call that comes now finds it gone.
                for _ in 0..5 {
                    thread::yield_now();
                }
                Poll::Ready(None)
            }
            Some(polls) => {
                self.polls = Some(polls - 1);
                waker.wake_by_ref();
                Poll::Pending
            }
        }
    }
}

/// What a call came to: it gave up, or it did what it had to with so much, or the channel was closed.
#[derive(Drop)]
enum Came {
    GaveUp,
    To(u64),
    Closed,
}

/// Receives a message, or gives up: three in four calls do so after 0, 1 or 2 polls.
fn receive<R: Wait + Copy + Drop>(
    rt: &R,
    alloc: Global,
    receiver: &Receiver<u64, ThreadWaker, R>,
    draws: &mut Draws,
) -> Came {
    let polls = draws.patience();
    let future = receiver.recv();
    match block_on::<ThreadWaker, _, _>(rt, alloc, Hasty { future, polls }) {
        Ok(Some(Ok(number))) => Came::To(number),
        Ok(None) => Came::GaveUp,
        _ => Came::Closed,
    }
}

/// Sends a number, or gives up, as often.
fn send<R: Wait + Copy + Drop>(
    rt: &R,
    alloc: Global,
    sender: &Sender<u64, ThreadWaker, R>,
    number: u64,
    draws: &mut Draws,
) -> Came {
    let polls = draws.patience();
    let future = sender.send(number);
    match block_on::<ThreadWaker, _, _>(rt, alloc, Hasty { future, polls }) {
        Ok(Some(Ok(()))) => Came::To(number),
        Ok(None) => Came::GaveUp,
        _ => Came::Closed,
    }
}

/// Sends the numbers up to 2,000, but those that it gave up. Answers the sum of what was sent.
fn send_some<R: Wait + Copy + Drop>(
    rt: &R,
    alloc: Global,
    sender: &Sender<u64, ThreadWaker, R>,
    seed: u64,
) -> u64 {
    let mut draws = Draws(seed);
    let mut sum = 0u64;
    for number in 1..=2_000 {
        if let Came::To(sent) = send(rt, alloc, sender, number, &mut draws) {
            sum = sum.saturating_add(sent);
        }
    }
    sum
}

/// Receives until the channel is closed. Answers the sum of what came.
fn receive_all<R: Wait + Copy + Drop>(
    rt: &R,
    alloc: Global,
    receiver: &Receiver<u64, ThreadWaker, R>,
    seed: u64,
) -> u64 {
    let mut draws = Draws(seed);
    let mut sum = 0u64;
    for _ in 0..10_000_000u64 {
        match receive(rt, alloc, receiver, &mut draws) {
            Came::To(number) => sum = sum.saturating_add(number),
            Came::GaveUp => thread::yield_now(),
            Came::Closed => return sum,
        }
    }
    0
}

/// What three parties share: messages and their receipts, one at a time, and which of them is sent.
#[derive(Drop)]
struct Hall<R: Wait + Copy + Drop> {
    rt: R,
    alloc: Global,
    message: (Sender<u64, ThreadWaker, R>, Receiver<u64, ThreadWaker, R>),
    receipt: (Sender<u64, ThreadWaker, R>, Receiver<u64, ThreadWaker, R>),
    round: AtomicU64,
}

/// How many messages are sent one by one.
const ROUNDS: u64 = 3_000;

impl<R: Wait + Copy + Drop> Hall<R> {
    fn new(rt: R, alloc: Global) -> io::Result<Hall<R>> {
        Ok(Hall {
            rt,
            alloc,
            message: channel::bounded(rt, alloc, 1)?,
            receipt: channel::bounded(rt, alloc, 1)?,
            round: AtomicU64::new(0),
        })
    }

    /// Lets others go first, so often.
    fn pause(&self, times: u64) {
        for _ in 0..times {
            thread::yield_now();
        }
    }

    /// Sends each message once the one before was received. Answers how many were.
    fn serve(&self, draws: &mut Draws) -> u64 {
        for round in 1..=ROUNDS {
            self.round.store(round, SeqCst);
            self.pause(draws.patience().unwrap_or(7));
            let is_sent = self.message.0.try_send(round).is_ok();
            match block_on::<ThreadWaker, _, _>(&self.rt, self.alloc, self.receipt.1.recv()) {
                Ok(Ok(number)) if is_sent & (number == round) => {}
                _ => return round,
            }
        }
        self.message.0.close();
        ROUNDS
    }

    /// Receives what comes, and gives receipts, until nothing comes any more.
    fn stay(&self, draws: &mut Draws) -> u64 {
        for _ in 0..ROUNDS + 1 {
            match block_on::<ThreadWaker, _, _>(&self.rt, self.alloc, self.message.1.recv()) {
                Ok(Ok(number)) => {
                    let _sent = self.receipt.0.try_send(number);
                    self.pause(draws.patience().unwrap_or(7));
                }
                _ => return ROUNDS,
            }
        }
        0
    }

    /// Tries once for each message, and gives up.
    fn come_and_go(&self, draws: &mut Draws) -> u64 {
        let mut seen = 0u64;
        for _ in 0..1_000_000_000u64 {
            let round = self.round.load(SeqCst);
            if round == seen {
                thread::yield_now();
            } else {
                seen = round;
                let polls = Some(draws.patience().unwrap_or(7));
                let future = self.message.1.recv();
                match block_on::<ThreadWaker, _, _>(&self.rt, self.alloc, Hasty { future, polls }) {
                    Ok(Some(Ok(number))) => {
                        let _sent = self.receipt.0.try_send(number);
                    }
                    Ok(None) => {}
                    _ => return ROUNDS,
                }
            }
            if seen == ROUNDS {
                return ROUNDS;
            }
        }
        0
    }
}

/// One of two receivers tries once for each message and gives up. Where it was notified before, the other has the message: the
/// sender waits for the receipt before it sends the next.
#[test]
fn who_stays_has_each_message_that_was_given_up(rt: HostRuntime) -> io::Result<()> {
    let alloc = rt.alloc();
    let hall = Hall::new(rt, alloc)?;
    let play = |party: usize| {
        let mut draws = Draws(party as u64);
        match party {
            0 => hall.serve(&mut draws),
            1 => hall.stay(&mut draws),
            _ => hall.come_and_go(&mut draws),
        }
    };
    let ended = thread::map_indices(&rt, alloc, 3, &play);
    assert!(rt; total(ended) == 3 * ROUNDS);
    Ok(())
}

#[test]
fn who_gives_up_at_random_loses_nothing(rt: HostRuntime) -> io::Result<()> {
    let alloc = rt.alloc();
    for seed in 0..4u64 {
        let (sender, receiver) = channel::bounded::<u64, ThreadWaker, ThreadWaker, _>(
            rt, alloc, 2,
        )?;
        let sends = |party: usize| send_some(&rt, alloc, &sender, seed.wrapping_add(party as u64));
        let send = || {
            let ends = thread::map_indices(&rt, alloc, 2, &sends);
            sender.close();
            total(ends)
        };
        let receives = |party: usize| receive_all(
            &rt,
            alloc,
            &receiver,
            !seed.wrapping_add(party as u64),
        );
        let receive = || total(thread::map_indices(&rt, alloc, 3, &receives));
        let (sent, received) = thread::join(&rt, send, receive);
        assert!(rt; (sent == received) & (sent > 0));
    }
    Ok(())
}
