//! Each call of `waiting` that takes memory: what a refusal of it answers. The call is made once more then. Calls that take none
//! stand between them.
use async_task::{Future, Nobody, Poll};
use refusal_rows::{Call, Place, Report};
use std::alloc::Global;
use std::sync::Wait;
use waiting::channel::one_kind::{Receiver, Sender};
use waiting::channel::{self, RecvError, SendError, TrySendError};
use waiting::semaphore::{AcquireError, Semaphore};
use waiting::{Event, oneshot};

/// Makes each call, and says whether all was as it has to be.
pub fn try_waiting<R: Wait + Copy + Drop>(rt: R, alloc: Global, report: &mut Report) -> bool {
    report.come_to(Place::Waiting);
    listen(rt, alloc, report)
        & hand_over(rt, alloc, report)
        & exchange(rt, alloc, report)
        & exchange_without_a_bound(rt, alloc, report)
        & take_turns(rt, alloc, report)
}

/// A listener is notified. The first waiter takes no memory. A `listen` that is refused leaves it as the only waiter.
fn listen<R: Wait + Copy + Drop>(rt: R, alloc: Global, report: &mut Report) -> bool {
    let mut made = Event::<Nobody, R>::new(rt, alloc);
    if made.is_err() {
        report.is_refused(Call::Event);
        made = Event::new(rt, alloc);
    }
    let Ok(event) = made else {
        return false;
    };
    let Ok(mut first) = event.listen() else {
        return false;
    };
    let mut listening = event.listen();
    if listening.is_err() {
        report.is_refused(Call::Listen);
        report.expect(event.notify() & !event.notify());
        report.expect(matches!(first.poll(&Nobody), Poll::Ready(())));
        listening = event.listen();
    }
    let Ok(mut listener) = listening else {
        return false;
    };
    drop(first);
    matches!(listener.poll(&Nobody), Poll::Pending)
        & event.notify()
        & matches!(listener.poll(&Nobody), Poll::Ready(()))
}

/// A value is handed over.
fn hand_over<R: Wait + Copy + Drop>(rt: R, alloc: Global, report: &mut Report) -> bool {
    let mut made = oneshot::channel::<u64, Nobody, R>(rt, alloc);
    if made.is_err() {
        report.is_refused(Call::Oneshot);
        made = oneshot::channel(rt, alloc);
    }
    let Ok((sender, mut receiver)) = made else {
        return false;
    };
    matches!(receiver.poll(&Nobody), Poll::Pending)
        & sender.send(3).is_ok()
        & matches!(receiver.poll(&Nobody), Poll::Ready(Ok(3)))
}

/// A receiver waits for a message, and a sender for a place.
fn exchange<R: Wait + Copy + Drop>(rt: R, alloc: Global, report: &mut Report) -> bool {
    let mut made = channel::bounded::<u64, Nobody, Nobody, R>(rt, alloc, 1);
    if made.is_err() {
        report.is_refused(Call::Channel);
        made = channel::bounded(rt, alloc, 1);
    }
    let Ok((mut sender, mut receiver)) = made else {
        return false;
    };
    receive(&mut sender, &mut receiver, report) & send(&mut sender, &mut receiver, report)
}

/// A message takes memory where a channel has no bound. One that is refused comes back, and isn't there.
fn exchange_without_a_bound<R: Wait + Copy + Drop>(
    rt: R,
    alloc: Global,
    report: &mut Report,
) -> bool {
    let mut made = channel::unbounded::<u64, Nobody, Nobody, R>(rt, alloc);
    if made.is_err() {
        report.is_refused(Call::Channel);
        made = channel::unbounded(rt, alloc);
    }
    let Ok((sender, receiver)) = made else {
        return false;
    };
    let mut sent = sender.try_send(1);
    if let Err(TrySendError::NoMemory(message)) = sent {
        report.is_refused(Call::Send);
        report.expect((message == 1) & sender.is_empty());
        sent = sender.try_send(message);
    }
    sent.is_ok() & matches!(receiver.try_recv(), Ok(1))
}

/// One that was refused a place among those who wait for a permit has none, and may be polled again. The first takes no memory.
fn take_turns<R: Wait + Copy + Drop>(rt: R, alloc: Global, report: &mut Report) -> bool {
    let mut made = Semaphore::<Nobody, R>::new(rt, alloc, 0);
    if made.is_err() {
        report.is_refused(Call::Event);
        made = Semaphore::new(rt, alloc, 0);
    }
    let Ok(semaphore) = made else {
        return false;
    };
    let (Ok(mut first), Ok(mut second)) = (semaphore.acquire(), semaphore.acquire()) else {
        return false;
    };
    let waits = matches!(first.poll(&Nobody), Poll::Pending);
    let mut polled = second.poll(&Nobody);
    if let Poll::Ready(Err(AcquireError::NoMemory)) = polled {
        report.is_refused(Call::Listen);
        polled = second.poll(&Nobody);
    }
    let is_pending = matches!(polled, Poll::Pending);
    semaphore.add_permits(2);
    let (one, two) = (first.poll(&Nobody), second.poll(&Nobody));
    let have = matches!(one, Poll::Ready(Ok(_))) & matches!(two, Poll::Ready(Ok(_)));
    drop(one);
    drop(two);
    waits & is_pending & have & (semaphore.available_permits() == 2)
}

/// A receiver that was refused a place among those who wait has taken no message. The first who waits takes no memory.
fn receive<R: Wait + Copy + Drop>(
    sender: &mut Sender<u64, Nobody, R>,
    receiver: &mut Receiver<u64, Nobody, R>,
    report: &mut Report,
) -> bool {
    let Ok(mut first) = receiver.clone() else {
        return false;
    };
    let waits = matches!(first.poll_recv(&Nobody), Poll::Pending);
    let mut polled = receiver.poll_recv(&Nobody);
    if let Poll::Ready(Err(RecvError::NoMemory)) = polled {
        report.is_refused(Call::Recv);
        polled = receiver.poll_recv(&Nobody);
    }
    waits
        & matches!(polled, Poll::Pending)
        & sender.try_send(1).is_ok()
        & matches!(receiver.poll_recv(&Nobody), Poll::Ready(Ok(1)))
}

/// A sender that was refused a place among those who wait has its message back. The first who waits takes no memory.
fn send<R: Wait + Copy + Drop>(
    sender: &mut Sender<u64, Nobody, R>,
    receiver: &mut Receiver<u64, Nobody, R>,
    report: &mut Report,
) -> bool {
    let Ok(mut first) = sender.clone() else {
        return false;
    };
    let mut other = Some(3);
    let is_full = sender.try_send(1).is_ok()
        & matches!(first.poll_send(&Nobody, &mut other), Poll::Pending);
    let mut message = Some(2);
    let mut polled = sender.poll_send(&Nobody, &mut message);
    if let Poll::Ready(Err(SendError::NoMemory(()))) = polled {
        report.is_refused(Call::Send);
        report.expect(matches!(message, Some(2)));
        polled = sender.poll_send(&Nobody, &mut message);
    }
    is_full
        & matches!(polled, Poll::Pending)
        & matches!(receiver.try_recv(), Ok(1))
        & matches!(sender.poll_send(&Nobody, &mut message), Poll::Ready(Ok(())))
        & matches!(receiver.try_recv(), Ok(2))
        & sender.close()
}
