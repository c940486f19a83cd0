//! Three wait, the first is dropped, and a call comes. The others are as if the first had never been.
use crate::waits::bell::Bell;
use async_task::{Future, Poll};
use std::alloc::Global;
use std::io;
use std::sync::Wait;
use waiting::channel::one_kind::{Receiver, Sender};
use waiting::{Event, channel, join, pending, select};

/// When the first is dropped.
#[derive(Clone, Copy)]
enum When {
    /// Before the call comes.
    Before,
    /// Before the call comes, and it was polled twice.
    PolledTwice,
    /// Once the call came.
    Told,
}

/// Where the call comes from.
#[derive(Drop)]
enum Tells<'a, R: Wait + Copy + Drop> {
    Message(&'a Sender<u64, Bell, R>),
    Place(&'a Receiver<u64, Bell, R>),
    Event(&'a Event<Bell, R>),
}

impl<'a, R: Wait + Copy + Drop> Tells<'a, R> {
    fn tell(&self) -> bool {
        match self {
            Tells::Message(sender) => sender.try_send(7).is_ok(),
            Tells::Place(receiver) => receiver.try_recv().is_ok(),
            Tells::Event(event) => event.notify(),
        }
    }
}

/// Whether the second alone of those that are left was called and is ready, and the first was called where it was notified.
fn the_second_is_told<A, B, C, R>(
    bells: &[Bell; 3],
    when: When,
    first: A,
    others: (B, C),
    tells: Tells<'_, R>,
) -> bool
where
    A: Future<Bell> + Drop,
    B: Future<Bell> + Drop,
    C: Future<Bell> + Drop,
    A::Output: Drop,
    B::Output: Drop,
    C::Output: Drop,
    R: Wait + Copy + Drop,
{
    let mut first = first;
    let (mut second, mut third) = others;
    let [one, two, three] = bells;
    let mut waits = matches!(first.poll(one), Poll::Pending);
    waits &= matches!(second.poll(two), Poll::Pending);
    waits &= matches!(third.poll(three), Poll::Pending);
    let calls = match when {
        When::Before => {
            drop(first);
            waits &= tells.tell();
            0
        }
        When::PolledTwice => {
            waits &= matches!(first.poll(one), Poll::Pending);
            drop(first);
            waits &= tells.tell();
            0
        }
        When::Told => {
            waits &= tells.tell();
            drop(first);
            1
        }
    };
    let told = (one.calls() == calls) & (two.calls() == 1) & (three.calls() == 0);
    let ready = matches!(second.poll(two), Poll::Ready(_));
    waits & told & ready & matches!(third.poll(three), Poll::Pending)
}

fn bells(alloc: Global) -> io::Result<[Bell; 3]> {
    let (one, two) = (Bell::new(alloc, false)?, Bell::new(alloc, false)?);
    Ok([one, two, Bell::new(alloc, false)?])
}

/// Three of a kind.
struct Three<X> {
    first: X,
    second: X,
    third: X,
}

fn receivers<R: Wait + Copy + Drop>(
    first: Receiver<u64, Bell, R>,
) -> io::Result<Three<Receiver<u64, Bell, R>>> {
    let second = first.clone()?;
    let third = first.clone()?;
    Ok(Three {
        first,
        second,
        third,
    })
}

fn senders<R: Wait + Copy + Drop>(
    first: Sender<u64, Bell, R>,
) -> io::Result<Three<Sender<u64, Bell, R>>> {
    let second = first.clone()?;
    let third = first.clone()?;
    Ok(Three {
        first,
        second,
        third,
    })
}

/// How the first receiver waits.
#[derive(Clone, Copy)]
enum Beside {
    Nothing,
    Select,
    Join,
}

fn three_receive<R: Wait + Copy + Drop>(
    rt: R,
    alloc: Global,
    when: When,
    beside: Beside,
) -> io::Result<bool> {
    let bells = bells(alloc)?;
    let (sender, first) = channel::bounded::<u64, Bell, Bell, R>(rt, alloc, 1)?;
    let Three {
        first,
        second,
        third,
    } = receivers(first)?;
    let tells = Tells::Message(&sender);
    let others = (second.recv(), third.recv());
    let first = first.recv();
    Ok(match beside {
        Beside::Nothing => the_second_is_told(&bells, when, first, others, tells),
        Beside::Select => {
            let first = select(first, pending::<u64>());
            the_second_is_told(&bells, when, first, others, tells)
        }
        Beside::Join => {
            let first = join(pending::<u64>(), first);
            the_second_is_told(&bells, when, first, others, tells)
        }
    })
}

fn three_send<R: Wait + Copy + Drop>(rt: R, alloc: Global, when: When) -> io::Result<bool> {
    let bells = bells(alloc)?;
    let (first, receiver) = channel::bounded::<u64, Bell, Bell, R>(rt, alloc, 1)?;
    let is_full = first.try_send(0).is_ok();
    let Three {
        first,
        second,
        third,
    } = senders(first)?;
    let others = (second.send(2), third.send(3));
    let tells = Tells::Place(&receiver);
    Ok(is_full & the_second_is_told(&bells, when, first.send(1), others, tells))
}

fn three_listen<R: Wait + Copy + Drop>(rt: R, alloc: Global, when: When) -> io::Result<bool> {
    let bells = bells(alloc)?;
    let event = Event::new(rt, alloc)?;
    let first = event.listen()?;
    let second = event.listen()?;
    let others = (second, event.listen()?);
    Ok(the_second_is_told(&bells, when, first, others, Tells::Event(&event)))
}

fn all_wait<R: Wait + Copy + Drop>(rt: R, alloc: Global, when: When) -> io::Result<bool> {
    let mut holds = three_send(rt, alloc, when)? & three_listen(rt, alloc, when)?;
    for beside in [Beside::Nothing, Beside::Select, Beside::Join] {
        holds &= three_receive(rt, alloc, when, beside)?;
    }
    Ok(holds)
}

#[test]
fn who_is_dropped_is_as_if_it_had_never_been(rt: HostRuntime) -> io::Result<()> {
    for when in [When::Before, When::PolledTwice, When::Told] {
        assert!(rt; all_wait(rt, rt.alloc(), when)?);
    }
    Ok(())
}

/// How a receiver or a sender that is in a field of a future gives up once it was notified.
#[derive(Clone, Copy)]
enum Field {
    GivesUp,
    IsDropped,
    /// It calls at once, which needs no wait.
    Calls,
}

/// One of two receivers was notified, and doesn't poll again. The other is notified, and the first may receive again.
fn a_receiver_in_a_field<R: Wait + Copy + Drop>(
    rt: R,
    alloc: Global,
    field: Field,
) -> io::Result<bool> {
    let (sender, mut one) = channel::bounded::<u64, Bell, Bell, R>(rt, alloc, 1)?;
    let mut two = one.clone()?;
    let [first, second, _] = &bells(alloc)?;
    let mut waits = matches!(one.poll_recv(first), Poll::Pending);
    waits &= matches!(two.poll_recv(second), Poll::Pending);
    waits &= sender.try_send(7).is_ok() & (first.calls() == 1) & (second.calls() == 0);
    match field {
        Field::GivesUp => one.give_up(),
        Field::IsDropped => {
            drop(one);
            one = two.clone()?;
        }
        Field::Calls => return Ok(waits & matches!(one.try_recv(), Ok(7))),
    }
    waits &= (second.calls() == 1) & matches!(two.poll_recv(second), Poll::Ready(Ok(7)));
    waits &= matches!(one.poll_recv(first), Poll::Pending) & sender.try_send(8).is_ok();
    Ok(waits & (first.calls() == 2) & matches!(one.poll_recv(first), Poll::Ready(Ok(8))))
}

/// One of two senders was notified, and doesn't poll again. The other is notified, and the first may send again.
fn a_sender_in_a_field<R: Wait + Copy + Drop>(
    rt: R,
    alloc: Global,
    field: Field,
) -> io::Result<bool> {
    let (mut one, receiver) = channel::bounded::<u64, Bell, Bell, R>(rt, alloc, 1)?;
    let mut two = one.clone()?;
    let [first, second, _] = &bells(alloc)?;
    let (mut mine, mut yours) = (Some(1), Some(2));
    let mut waits = one.try_send(0).is_ok();
    waits &= matches!(one.poll_send(first, &mut mine), Poll::Pending);
    waits &= matches!(two.poll_send(second, &mut yours), Poll::Pending);
    waits &= receiver.try_recv().is_ok() & (first.calls() == 1) & (second.calls() == 0);
    match field {
        Field::GivesUp => one.give_up(),
        Field::IsDropped => {
            drop(one);
            one = two.clone()?;
        }
        Field::Calls => return Ok(waits & one.try_send(3).is_ok()),
    }
    waits &= (second.calls() == 1)
        & matches!(two.poll_send(second, &mut yours), Poll::Ready(Ok(())));
    waits &= matches!(one.poll_send(first, &mut mine), Poll::Pending);
    waits &= matches!(receiver.try_recv(), Ok(2)) & (first.calls() == 2);
    Ok(waits & matches!(one.poll_send(first, &mut mine), Poll::Ready(Ok(()))))
}

fn both_ends<R: Wait + Copy + Drop>(rt: R, alloc: Global, field: Field) -> io::Result<bool> {
    Ok(a_receiver_in_a_field(rt, alloc, field)? & a_sender_in_a_field(rt, alloc, field)?)
}

#[test]
fn who_gives_up_hands_its_call_on(rt: HostRuntime) -> io::Result<()> {
    for field in [Field::GivesUp, Field::IsDropped, Field::Calls] {
        assert!(rt; both_ends(rt, rt.alloc(), field)?);
    }
    Ok(())
}
