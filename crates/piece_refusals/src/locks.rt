//! A mutex, a barrier, and the newest of values. The first who waits takes no memory.
use async_lock::{Barrier, Mutex, NoMemoryFor, watch};
use async_task::{Future, Nobody, Poll};
use refusal_rows::{Call, Place, Report};
use std::alloc::Global;
use std::sync::Wait;

/// Makes each call, and says whether all was as it has to be.
pub fn try_locks<R: Wait + Copy + Drop>(rt: R, alloc: Global, report: &mut Report) -> bool {
    report.come_to(Place::AsyncLock);
    lock(rt, alloc, report) & meet(rt, alloc, report) & follow(rt, alloc, report)
}

/// Two wait for a value that one has. One that was refused a place among those who wait may be polled again.
fn lock<R: Wait + Copy + Drop>(rt: R, alloc: Global, report: &mut Report) -> bool {
    let mut made = Mutex::<u64, Nobody, R>::new(rt, alloc, 7);
    if let Err(NoMemoryFor(value)) = made {
        report.is_refused(Call::Mutex);
        report.expect(value == 7);
        made = Mutex::new(rt, alloc, value);
    }
    let Ok(mutex) = made else {
        return false;
    };
    let (Ok(guard), Ok(mut first), Ok(mut second)) = (mutex.try_lock(), mutex.lock(), mutex.lock())
    else {
        return false;
    };
    let waits = matches!(first.poll(&Nobody), Poll::Pending);
    let mut polled = second.poll(&Nobody);
    if let Poll::Ready(Err(_)) = polled {
        report.is_refused(Call::PollLock);
        polled = second.poll(&Nobody);
    }
    let both_wait = waits & matches!(polled, Poll::Pending);
    drop(guard);
    let has = matches!(first.poll(&Nobody), Poll::Ready(Ok(_)));
    both_wait & has & matches!(second.poll(&Nobody), Poll::Ready(Ok(guard)) if *guard.get() == 7)
}

/// Three meet. One that was refused a place among those who wait hasn't come.
fn meet<R: Wait + Copy + Drop>(rt: R, alloc: Global, report: &mut Report) -> bool {
    let mut made = Barrier::<Nobody, R>::new(rt, alloc, 3);
    if made.is_err() {
        report.is_refused(Call::Barrier);
        made = Barrier::new(rt, alloc, 3);
    }
    let Ok(mut barrier) = made else {
        return false;
    };
    let (Ok(mut first), Ok(mut second)) = (barrier.wait(), barrier.wait()) else {
        return false;
    };
    let waits = matches!(first.poll(&Nobody), Poll::Pending);
    let mut polled = second.poll(&Nobody);
    if let Poll::Ready(Err(_)) = polled {
        report.is_refused(Call::PollWait);
        polled = second.poll(&Nobody);
    }
    let both_wait = waits & matches!(polled, Poll::Pending);
    let leads = matches!(barrier.poll_wait(&Nobody), Poll::Ready(Ok(passed)) if passed.is_leader());
    both_wait & leads & matches!(second.poll(&Nobody), Poll::Ready(Ok(_)))
}

/// Two follow values. A value that is refused comes back, and isn't seen.
fn follow<R: Wait + Copy + Drop>(rt: R, alloc: Global, report: &mut Report) -> bool {
    let mut made = watch::channel::<u64, Nobody, R>(rt, alloc, 1);
    if let Err(NoMemoryFor(value)) = made {
        report.is_refused(Call::Watch);
        report.expect(value == 1);
        made = watch::channel(rt, alloc, value);
    }
    let Ok((sender, mut first)) = made else {
        return false;
    };
    let Ok(mut second) = first.clone() else {
        return false;
    };
    let waits = matches!(first.poll_changed(&Nobody), Poll::Pending);
    let mut polled = second.poll_changed(&Nobody);
    if let Poll::Ready(Err(_)) = polled {
        report.is_refused(Call::PollChanged);
        polled = second.poll_changed(&Nobody);
    }
    let both_wait = waits & matches!(polled, Poll::Pending);
    let mut sent = sender.send(2);
    if let Err(NoMemoryFor(value)) = sent {
        report.is_refused(Call::Send);
        report.expect((value == 2) & !first.has_changed());
        sent = sender.send(value);
    }
    let sees = matches!(second.poll_changed(&Nobody), Poll::Ready(Ok(())));
    both_wait & sent.is_ok() & sees & matches!(first.borrow(), Ok(newest) if *newest == 2)
}
