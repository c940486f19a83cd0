//! The examples of the doc comments of `waiting`, line by line, and what follows them.
use crate::waits::bell::Bell;
use async_task::{Future, Nobody, Poll};
use std::io;
use waiting::channel::{self, RecvError, TryRecvError, TrySendError};
use waiting::{Either, Event, join, oneshot, pending, ready, select, yield_now};

#[test]
fn at_once_never_and_second(rt: HostRuntime) {
    assert!(rt; matches!(ready(1u64).poll(&Nobody), Poll::Ready(1)));
    assert!(rt; matches!(pending::<u64>().poll(&Nobody), Poll::Pending));
    let mut yields = yield_now();
    assert!(rt; matches!(yields.poll(&Nobody), Poll::Pending));
    assert!(rt; matches!(yields.poll(&Nobody), Poll::Ready(())));
}

#[test]
fn both_and_the_first_of_two(rt: HostRuntime) {
    let mut both = join(ready(1u64), yield_now());
    assert!(rt; matches!(both.poll(&Nobody), Poll::Pending));
    assert!(rt; matches!(both.poll(&Nobody), Poll::Ready((1, ()))));

    let mut first = select(pending::<u64>(), yield_now());
    assert!(rt; matches!(first.poll(&Nobody), Poll::Pending));
    assert!(rt; matches!(first.poll(&Nobody), Poll::Ready(Either::Right(((), _)))));
}

#[test]
fn a_dropped_listener_that_was_told_tells_the_next(rt: HostRuntime) -> io::Result<()> {
    let event = Event::<Nobody, _>::new(rt, rt.alloc())?;
    let (first, mut second) = (event.listen()?, event.listen()?);
    assert!(rt; event.notify());
    assert!(rt; matches!(second.poll(&Nobody), Poll::Pending));
    drop(first);
    assert!(rt; matches!(second.poll(&Nobody), Poll::Ready(())));

    assert!(rt; !event.notify());
    Ok(())
}

#[test]
fn a_channel_without_a_bound_is_never_full(rt: HostRuntime) -> io::Result<()> {
    let (sender, receiver) = channel::unbounded::<u64, Nobody, Nobody, _>(rt, rt.alloc())?;
    assert!(rt; sender.try_send(1).is_ok() & sender.try_send(2).is_ok());
    assert!(rt; (sender.len() == 2) & sender.capacity().is_none() & !sender.is_full());
    assert!(rt; matches!(receiver.recv().poll(&Nobody), Poll::Ready(Ok(1))));
    for number in 3..=100 {
        assert!(rt; matches!(sender.send(number).poll(&Nobody), Poll::Ready(Ok(()))));
    }
    drop(sender);
    for number in 2..=100 {
        assert!(rt; matches!(receiver.recv().poll(&Nobody), Poll::Ready(Ok(one)) if one == number));
    }
    assert!(rt;
        matches!(
            receiver.recv().poll(&Nobody),
            Poll::Ready(Err(RecvError::Closed))
        )
    );
    Ok(())
}

/// A sender and a receiver wait each with a waker of its own type.
#[test]
fn the_ends_have_wakers_of_two_kinds(rt: HostRuntime) -> io::Result<()> {
    let (bell, mute) = (Bell::new(rt.alloc(), false)?, Nobody);
    let (sender, receiver) = channel::bounded::<u64, Bell, Nobody, _>(rt, rt.alloc(), 1)?;
    assert!(rt; matches!(receiver.recv().poll(&mute), Poll::Pending));
    assert!(rt; sender.try_send(1).is_ok());
    let mut second = sender.send(2);
    assert!(rt; matches!(second.poll(&bell), Poll::Pending));
    assert!(rt; matches!(receiver.try_recv(), Ok(1)) & (bell.calls() == 1));
    assert!(rt; matches!(second.poll(&bell), Poll::Ready(Ok(()))));
    Ok(())
}

#[test]
fn a_channel_is_full_emptied_and_closed(rt: HostRuntime) -> io::Result<()> {
    let (mut sender, mut receiver) = channel::bounded::<u64, Nobody, Nobody, _>(rt, rt.alloc(), 1)?;
    assert!(rt; matches!(receiver.poll_recv(&Nobody), Poll::Pending));
    assert!(rt; sender.try_send(1).is_ok());
    assert!(rt; matches!(sender.try_send(2), Err(TrySendError::Full(2))));
    let mut message = Some(3);
    assert!(rt; matches!(sender.poll_send(&Nobody, &mut message), Poll::Pending));
    assert!(rt; matches!(receiver.recv().poll(&Nobody), Poll::Ready(Ok(1))));
    assert!(rt; matches!(sender.poll_send(&Nobody, &mut message), Poll::Ready(Ok(()))));
    drop(sender);
    assert!(rt; matches!(receiver.poll_recv(&Nobody), Poll::Ready(Ok(3))));
    assert!(rt; matches!(receiver.try_recv(), Err(TryRecvError::Closed)));

    assert!(rt;
        matches!(
            receiver.poll_recv(&Nobody),
            Poll::Ready(Err(RecvError::Closed))
        )
    );
    Ok(())
}

#[test]
fn a_oneshot_is_sent_refused_and_canceled(rt: HostRuntime) -> io::Result<()> {
    let (sender, mut receiver) = oneshot::channel::<u64, Nobody, _>(rt, rt.alloc())?;
    assert!(rt; matches!(receiver.poll(&Nobody), Poll::Pending));
    assert!(rt; sender.send(1).is_ok());
    assert!(rt; matches!(receiver.poll(&Nobody), Poll::Ready(Ok(1))));

    let (second, gone) = oneshot::channel::<u64, Nobody, _>(rt, rt.alloc())?;
    drop(gone);
    assert!(rt; matches!(second.send(2), Err(2)));
    let (third, mut waits) = oneshot::channel::<u64, Nobody, _>(rt, rt.alloc())?;
    drop(third);
    assert!(rt; matches!(waits.poll(&Nobody), Poll::Ready(Err(oneshot::Canceled))));
    Ok(())
}
