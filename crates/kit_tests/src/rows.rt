//! What a future of the library's answers where it is awaited, and who is called. On one thread: `turn` is called as often as a wake
//! is due. Each row says whether all went as it should.
use crate::bell::Bell;
use async_task::{Future, Poll, Runtime};
use futures::channel::oneshot::{self, Receiver, Sender};
use kit_futures::{AwaitError, Bridge, Compat, EnterError};
use std::alloc::Global;
use std::io;

type Awaited<R> = Compat<Receiver<u64>, Bell, R>;

/// What a poll answered.
#[derive(Clone, Copy, PartialEq, Eq, Drop)]
enum Answer {
    Pending,
    Number(u64),
    /// The library's channel ended without a number.
    Canceled,
    Closed,
    Finished,
}

fn polled<R: Runtime>(awaited: &mut Awaited<R>, bell: &Bell) -> Answer {
    match awaited.poll(bell) {
        Poll::Pending => Answer::Pending,
        Poll::Ready(Ok(Ok(number))) => Answer::Number(number),
        Poll::Ready(Ok(Err(_))) => Answer::Canceled,
        Poll::Ready(Err(AwaitError::Closed(_))) => Answer::Closed,
        Poll::Ready(Err(AwaitError::Finished)) => Answer::Finished,
    }
}

/// Whether a poll answers this.
fn is<R: Runtime>(awaited: &mut Awaited<R>, bell: &Bell, answers: Answer) -> bool {
    polled(awaited, bell) == answers
}

/// One more receiver that is awaited.
fn one_more<R: Runtime>(
    bridge: &Bridge<Bell, R>,
    alloc: Global,
) -> io::Result<(Sender<u64>, Awaited<R>)> {
    let (sender, receiver) = oneshot::channel(alloc)?;
    match Compat::new(bridge, receiver) {
        Ok(awaited) => Ok((sender, awaited)),
        Err(refused) => Err(refused.into()),
    }
}

/// One that waits is called at each wake, polled once more, and gives its output once.
fn waits<R: Runtime>(bridge: &'static Bridge<Bell, R>, alloc: Global) -> io::Result<bool> {
    let bell = Bell::new(alloc)?;
    let (sender, mut awaited) = one_more(&*bridge, alloc)?;
    let begins = is(&mut awaited, &bell, Answer::Pending) & bridge.turn() & bell.was_called(1);
    let waits = is(&mut awaited, &bell, Answer::Pending);
    let sent = sender.send(7).is_ok() & bell.was_called(1) & bridge.turn() & bell.was_called(2);
    let ends = is(&mut awaited, &bell, Answer::Number(7));
    let over = is(&mut awaited, &bell, Answer::Finished) & !bridge.turn() & bell.was_called(2);
    Ok(begins & waits & sent & ends & over)
}

/// One that is ready at its first turn is given with no waker left.
fn is_ready<R: Runtime>(bridge: &'static Bridge<Bell, R>, alloc: Global) -> io::Result<bool> {
    let mute = Bell::new(alloc)?.mute();
    let (sender, mut awaited) = one_more(&*bridge, alloc)?;
    drop(sender);
    let ends = bridge.turn() & is(&mut awaited, &mute, Answer::Canceled);
    Ok(ends & !bridge.turn() & mute.was_called(0))
}

/// Of two polls that wait only the later one's waker is called.
fn has_two_wakers<R: Runtime>(bridge: &'static Bridge<Bell, R>, alloc: Global) -> io::Result<bool> {
    let (first, second) = (Bell::new(alloc)?, Bell::new(alloc)?);
    let (sender, mut awaited) = one_more(&*bridge, alloc)?;
    let begins = bridge.turn() & is(&mut awaited, &first, Answer::Pending);
    let waits = is(&mut awaited, &second, Answer::Pending);
    let sent = sender.send(7).is_ok() & bridge.turn();
    let called = first.was_called(0) & second.was_called(1);
    Ok(begins & waits & sent & called & is(&mut awaited, &first, Answer::Number(7)))
}

/// A waker that has no copy to give is called, so that it polls again.
fn has_no_copy<R: Runtime>(bridge: &'static Bridge<Bell, R>, alloc: Global) -> io::Result<bool> {
    let mute = Bell::new(alloc)?.mute();
    let (sender, mut awaited) = one_more(&*bridge, alloc)?;
    let begins = is(&mut awaited, &mute, Answer::Pending) & mute.was_called(1) & bridge.turn();
    let waits = is(&mut awaited, &mute, Answer::Pending) & mute.was_called(2);
    let sent = sender.send(7).is_ok() & bridge.turn();
    let ends = is(&mut awaited, &mute, Answer::Number(7)) & mute.was_called(2);
    Ok(begins & waits & sent & ends)
}

/// One is dropped before its first turn, one with its turn there, one while it waits. Nobody is called, and each task ends.
fn goes<R: Runtime>(bridge: &'static Bridge<Bell, R>, alloc: Global) -> io::Result<bool> {
    let bell = Bell::new(alloc)?;
    let (one, awaited) = one_more(&*bridge, alloc)?;
    drop(awaited);
    let first = one.is_canceled() & bridge.turn() & !bridge.turn();
    let (two, awaited) = one_more(&*bridge, alloc)?;
    let turned = bridge.turn();
    drop(awaited);
    let second = turned & two.is_canceled() & !bridge.turn();
    let (three, mut awaited) = one_more(&*bridge, alloc)?;
    let waits = bridge.turn() & is(&mut awaited, &bell, Answer::Pending);
    drop(awaited);
    let third = waits & three.is_canceled() & bridge.turn() & !bridge.turn();
    Ok(first & second & third & bell.was_called(0))
}

/// A close calls who waits, and each poll says so once, also where a turn is there.
fn is_told<R: Runtime>(bridge: &'static Bridge<Bell, R>, alloc: Global) -> io::Result<bool> {
    let (bell, other) = (Bell::new(alloc)?, Bell::new(alloc)?);
    let (one, mut first) = one_more(&*bridge, alloc)?;
    let (two, mut second) = one_more(&*bridge, alloc)?;
    let turned = bridge.turn() & bridge.turn();
    let begins = turned & is(&mut first, &bell, Answer::Pending);
    bridge.close();
    let called = bell.was_called(1) & other.was_called(0);
    let told = is(&mut first, &bell, Answer::Closed) & is(&mut first, &bell, Answer::Finished);
    let both = told & is(&mut second, &other, Answer::Closed);
    Ok(begins & called & both & one.is_canceled() & two.is_canceled())
}

/// Who comes to a closed bridge is refused, and comes back.
fn is_refused<R: Runtime>(bridge: &'static Bridge<Bell, R>, alloc: Global) -> io::Result<bool> {
    bridge.close();
    let (sender, receiver) = oneshot::channel::<u64>(alloc)?;
    let refused = Compat::new(&*bridge, receiver);
    let is_back = matches!(&refused, Err(EnterError::Closed(_))) & !sender.is_canceled();
    Ok(is_back & !bridge.turn() & bridge.hear().is_ok())
}

#[test]
fn one_that_waits_is_called(rt: HostRuntime) -> io::Result<()> {
    let (bridge, alloc) = (Bridge::leak(rt, rt.alloc())?, rt.alloc());
    assert!(rt; waits(bridge, alloc)? & is_ready(bridge, alloc)?);
    Ok(())
}

#[test]
fn who_polled_last_is_called(rt: HostRuntime) -> io::Result<()> {
    let (bridge, alloc) = (Bridge::leak(rt, rt.alloc())?, rt.alloc());
    assert!(rt; has_two_wakers(bridge, alloc)? & has_no_copy(bridge, alloc)?);
    Ok(())
}

#[test]
fn who_goes_calls_nobody(rt: HostRuntime) -> io::Result<()> {
    let (bridge, alloc) = (Bridge::leak(rt, rt.alloc())?, rt.alloc());
    assert!(rt; goes(bridge, alloc)?);
    Ok(())
}

#[test]
fn a_close_tells_all(rt: HostRuntime) -> io::Result<()> {
    let (bridge, alloc) = (Bridge::leak(rt, rt.alloc())?, rt.alloc());
    assert!(rt; is_told(bridge, alloc)? & is_refused(bridge, alloc)?);
    Ok(())
}
