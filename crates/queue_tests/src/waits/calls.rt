//! Who is called, and what is counted.
use crate::waits::bell::Bell;
use async_task::{Future, Nobody, Poll};
use std::io;
use waiting::{Event, channel, oneshot, yield_now};

#[test]
fn yield_now_calls_its_waker_once(rt: HostRuntime) -> io::Result<()> {
    let bell = Bell::new(rt.alloc(), true)?;
    let mut yields = yield_now();
    assert!(rt; matches!(yields.poll(&bell), Poll::Pending));
    assert!(rt; bell.calls() == 1);
    assert!(rt; matches!(yields.poll(&bell), Poll::Ready(())));
    assert!(rt; bell.calls() == 1);
    Ok(())
}

/// Who can't leave its waker calls it.
#[test]
fn a_mute_waker_is_called(rt: HostRuntime) -> io::Result<()> {
    let bell = Bell::new(rt.alloc(), true)?;
    let event = Event::<Bell, _>::new(rt, rt.alloc())?;
    let mut listener = event.listen()?;
    assert!(rt; matches!(listener.poll(&bell), Poll::Pending));
    assert!(rt; bell.calls() == 1);
    let (_sender, mut receiver) = oneshot::channel::<u64, Bell, _>(rt, rt.alloc())?;
    assert!(rt; matches!(receiver.poll(&bell), Poll::Pending));
    assert!(rt; bell.calls() == 2);
    Ok(())
}

#[test]
fn notify_all_answers_how_many_it_told(rt: HostRuntime) -> io::Result<()> {
    let bell = Bell::new(rt.alloc(), false)?;
    let event = Event::<Bell, _>::new(rt, rt.alloc())?;
    assert!(rt; event.notify_all() == 0);
    let (mut first, mut second) = (event.listen()?, event.listen()?);
    let third = event.listen()?;
    assert!(rt; matches!(first.poll(&bell), Poll::Pending));
    assert!(rt; matches!(second.poll(&bell), Poll::Pending));
    assert!(rt; (event.notify_all() == 3) & (bell.calls() == 2));
    drop(third);
    assert!(rt; (event.notify_all() == 0) & (bell.calls() == 2));
    assert!(rt; matches!(first.poll(&bell), Poll::Ready(())));
    assert!(rt; matches!(second.poll(&bell), Poll::Ready(())));
    Ok(())
}

#[test]
fn a_channel_counts_its_messages(rt: HostRuntime) -> io::Result<()> {
    let (sender, receiver) = channel::bounded::<u64, Nobody, Nobody, _>(rt, rt.alloc(), 3)?;
    assert!(rt; receiver.len() == 0);
    assert!(rt; sender.try_send(1).is_ok() & sender.try_send(2).is_ok());
    assert!(rt; receiver.len() == 2);
    assert!(rt; receiver.try_recv().is_ok());
    assert!(rt; receiver.len() == 1);
    assert!(rt; sender.close());
    assert!(rt; !receiver.close());
    Ok(())
}
