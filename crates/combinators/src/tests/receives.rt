//! A receive with a time limit, beside another receiver of its channel: in each order of five calls, beside a model. It gives up,
//! its time is up, or it is dropped before it is called, between that and its poll, and after.
use crate::tests::bell::Bell;
use crate::{RecvTimeout, RecvTimeoutError, recv_timeout};
use async_task::{Future, Nobody, Poll};
use std::alloc::Global;
use std::io;
use std::sync::Wait;
use std::time::{Clock, Duration};
use timer::Timer;
use waiting::channel::one_kind::{Receiver, Sender};
use waiting::channel::{self, RecvError};

#[test]
fn the_example(rt: HostRuntime) -> io::Result<()> {
    let timer = Timer::<Nobody, _>::new(rt, rt.alloc(), 2)?;
    let (sender, receiver) = channel::bounded::<u64, Nobody, Nobody, _>(rt, rt.alloc(), 1)?;
    let mut timed = recv_timeout(receiver, timer.sleep(Duration::ZERO)?);
    assert!(rt; sender.try_send(1).is_ok());
    assert!(rt; matches!(timed.poll(&Nobody), Poll::Ready(Ok(1))));
    assert!(rt; matches!(timed.poll(&Nobody), Poll::Pending));
    timer.turn();
    assert!(rt;
        matches!(
            timed.poll(&Nobody),
            Poll::Ready(Err(RecvTimeoutError::Elapsed))
        )
    );
    timed.set_sleep(timer.sleep(Duration::from_secs(3_600))?);
    assert!(rt; matches!(timed.poll(&Nobody), Poll::Pending));
    timer.stop();
    assert!(rt;
        matches!(
            timed.poll(&Nobody),
            Poll::Ready(Err(RecvTimeoutError::Stopped))
        )
    );
    drop(sender);
    assert!(rt;
        matches!(
            timed.poll(&Nobody),
            Poll::Ready(Err(RecvTimeoutError::Closed))
        )
    );
    assert!(rt; timed.into_receiver().is_closed());
    Ok(())
}

/// A call of somebody.
#[derive(Clone, Copy, PartialEq, Eq)]
enum Act {
    /// The receiver with a time limit polls.
    Poll,
    GiveUp,
    /// The other receiver polls.
    Other,
    Send,
    /// Time passes.
    Turn,
}

/// Where a receiver is.
#[derive(Clone, Copy, PartialEq, Eq)]
enum At {
    Out,
    Waits,
    Called,
}

/// How a poll ended.
#[derive(Clone, Copy, PartialEq, Eq)]
enum End {
    Message,
    Waits,
    Elapsed,
    Other,
}

/// What the model says: where both are, who came first, how often each was called, how many messages there are, and whether the
/// time is up.
#[derive(Clone, Copy)]
struct Model {
    limited: At,
    other: At,
    other_was_first: bool,
    limited_calls: u64,
    other_calls: u64,
    messages: u64,
    is_up: bool,
}

/// The receiver with a time limit, and another.
#[derive(Drop)]
struct Desk<R: Wait + Copy + Drop> {
    timer: Timer<Bell, R>,
    sender: Sender<u64, Bell, R>,
    other: Receiver<u64, Bell, R>,
    bell: Bell,
    other_bell: Bell,
}

impl Model {
    fn new() -> Model {
        Model {
            limited: At::Out,
            other: At::Out,
            other_was_first: false,
            limited_calls: 0,
            other_calls: 0,
            messages: 0,
            is_up: false,
        }
    }

    /// The first waiter is called.
    fn call(&mut self) {
        let other_is_next = (self.other == At::Waits)
            & (self.other_was_first | (self.limited != At::Waits));
        if other_is_next {
            self.other = At::Called;
            self.other_calls = self.other_calls.saturating_add(1);
        } else if self.limited == At::Waits {
            self.limited = At::Called;
            self.limited_calls = self.limited_calls.saturating_add(1);
        }
    }

    /// The receiver with a time limit leaves: a notification that came for it goes on.
    fn limited_leaves(&mut self) {
        let was_called = self.limited == At::Called;
        self.limited = At::Out;
        if was_called {
            self.call();
        }
    }

    fn limited_polls(&mut self) -> End {
        if self.messages > 0 {
            self.messages = self.messages.saturating_sub(1);
            self.limited_leaves();
            return End::Message;
        }
        if self.limited != At::Waits {
            self.limited = At::Waits;
            self.other_was_first = self.other == At::Waits;
        }
        if self.is_up {
            self.limited_leaves();
            return End::Elapsed;
        }
        End::Waits
    }

    fn other_polls(&mut self) -> End {
        if self.messages > 0 {
            self.messages = self.messages.saturating_sub(1);
            let was_called = self.other == At::Called;
            self.other = At::Out;
            if was_called {
                self.call();
            }
            return End::Message;
        }
        if self.other != At::Waits {
            self.other = At::Waits;
            self.other_was_first = self.limited != At::Waits;
        }
        End::Waits
    }

    /// How a call ends. Of a call that isn't a poll nothing is said.
    fn acts(&mut self, act: Act) -> End {
        match act {
            Act::Poll => self.limited_polls(),
            Act::Other => self.other_polls(),
            Act::GiveUp => {
                self.limited_leaves();
                End::Other
            }
            Act::Send => {
                self.messages = self.messages.saturating_add(1);
                self.call();
                End::Other
            }
            Act::Turn => {
                self.is_up = true;
                End::Other
            }
        }
    }
}

fn end_of(polled: Poll<Result<u64, RecvTimeoutError>>) -> End {
    match polled {
        Poll::Pending => End::Waits,
        Poll::Ready(Ok(_)) => End::Message,
        Poll::Ready(Err(RecvTimeoutError::Elapsed)) => End::Elapsed,
        Poll::Ready(Err(_)) => End::Other,
    }
}

fn end_of_other(polled: Poll<Result<u64, RecvError>>) -> End {
    match polled {
        Poll::Pending => End::Waits,
        Poll::Ready(Ok(_)) => End::Message,
        Poll::Ready(Err(_)) => End::Other,
    }
}

fn act_of(digit: u64) -> Act {
    match digit % 5 {
        0 => Act::Poll,
        1 => Act::GiveUp,
        2 => Act::Other,
        3 => Act::Send,
        _ => Act::Turn,
    }
}

impl<R: Wait + Clock + Copy + Drop> Desk<R> {
    /// One call, and how it ends.
    fn acts(&mut self, limited: &mut RecvTimeout<u64, Bell, Bell, R>, act: Act) -> End {
        match act {
            Act::Poll => return end_of(limited.poll(&self.bell)),
            Act::Other => return end_of_other(self.other.poll_recv(&self.other_bell)),
            Act::GiveUp => limited.give_up(),
            Act::Send => drop(self.sender.try_send(1)),
            Act::Turn => drop(self.timer.turn()),
        }
        End::Other
    }

    /// Whether each was called as often as the model says. The receiver with a time limit is called once more where its time came
    /// while it slept.
    fn is_as_it_says(&self, model: &Model, slept: u64) -> bool {
        (self.other_bell.calls() == model.other_calls)
            & (self.bell.calls() == model.limited_calls.saturating_add(slept))
    }
}

/// This many calls, in the order of these digits, and then the drop of the receiver with a time limit.
fn plays<R: Wait + Clock + Copy + Drop>(
    rt: R,
    alloc: Global,
    calls: u64,
    digits: u64,
) -> io::Result<bool> {
    let timer = Timer::new(rt, alloc, 1)?;
    let sleep = timer.sleep(Duration::ZERO)?;
    let (sender, receiver) = channel::bounded(rt, alloc, 8)?;
    let other = receiver.clone()?;
    let mut limited = recv_timeout(receiver, sleep);
    let mut desk = Desk {
        timer,
        sender,
        other,
        bell: Bell::new(alloc)?,
        other_bell: Bell::new(alloc)?,
    };
    let mut model = Model::new();
    let mut is_well = true;
    let mut digits = digits;
    let (mut sleeps, mut slept) = (false, 0u64);
    for _ in 0..calls {
        let act = act_of(digits);
        digits /= 5;
        if (act == Act::Turn) & sleeps & !model.is_up {
            slept = 1;
        }
        let end = desk.acts(&mut limited, act);
        is_well &= end == model.acts(act);
        sleeps |= (act == Act::Poll) & (end == End::Waits);
        is_well &= desk.is_as_it_says(&model, slept);
    }
    drop(limited);
    model.limited_leaves();
    Ok(is_well & desk.is_as_it_says(&model, slept))
}

#[test]
fn who_gives_up_was_never_there(rt: HostRuntime) -> io::Result<()> {
    let mut orders = 1u64;
    for calls in 0..=5 {
        for digits in 0..orders {
            assert!(rt;
                plays(rt, rt.alloc(), calls, digits)?,
                "at {digits} of {calls} calls"
            );
        }
        orders = orders.saturating_mul(5);
    }
    Ok(())
}
