//! Two kinds of futures on one queue. Visitors wait at a door and leave their wakers there, and a
//! doorkeeper opens it and wakes them.
use async_task::{Awaiter, Future, Nobody, Poll, Realm, Returning, Runtime, StoredWaker, Wake};
use concurrent_queue::ConcurrentQueue;
use ready_queue::{Places, QueueRealm, QueueWaker, ReadyQueue};
use std::io::{self, ErrorKind};

/// The wakers of those who wait, as a list keeps them, until it is closed: the door is open then.
type Door = ConcurrentQueue<Returning<StoredWaker>>;

/// What the queue runs. One enum joins all kinds of futures.
#[derive(Drop)]
enum Job<R> {
    Visit(&'static Door, R),
    Open(&'static Door, R),
}

/// What became of a future.
#[derive(Drop)]
enum Said {
    GaveUp,
    CameIn,
    Opened,
}

type JobWaker<R> = QueueWaker<Job<R>, Said, Nobody, R>;

impl<R: Runtime> Future<JobWaker<R>> for Job<R> {
    type Output = Said;

    fn poll(&mut self, waker: &JobWaker<R>) -> Poll<Said> {
        match self {
            Job::Visit(door, rt) => visit(door, rt, waker),
            Job::Open(door, rt) => open(door, rt, waker),
        }
    }
}

/// Leaves a copy of the waker at the door, or comes in where it is open.
fn visit<R: Runtime>(door: &Door, rt: &R, waker: &JobWaker<R>) -> Poll<Said> {
    let Some(Awaiter::Task(copy)) = waker.clone() else {
        return Poll::Ready(Said::GaveUp);
    };
    match door.push(rt, Returning::new(copy.store())) {
        Ok(()) => Poll::Pending,
        Err(_) => Poll::Ready(Said::CameIn),
    }
}

/// Opens the door, and wakes whoever waits there.
fn open<R: Runtime>(door: &Door, rt: &R, waker: &JobWaker<R>) -> Poll<Said> {
    door.close(rt);
    if let Awaiter::Lent(own) = waker {
        for stored in door.try_iter(rt) {
            if let Some(visitor) = stored.redeem(*rt, own.realm()) {
                visitor.wake();
            }
        }
    }
    Poll::Ready(Said::Opened)
}

/// Runs two visitors and a doorkeeper, and says whether both visitors came in.
fn come_in<R: Runtime>(
    rt: R,
    realm: &'static QueueRealm<Job<R>, Said, Nobody, R>,
    places: &'static Places,
    door: &'static Door,
) -> bool {
    let queue = ReadyQueue::new(rt, realm, places);
    let Ok(mut first) = queue.spawn(Job::Visit(door, rt)) else {
        return false;
    };
    let Ok(mut second) = queue.spawn(Job::Visit(door, rt)) else {
        return false;
    };
    let Ok(opening) = queue.spawn(Job::Open(door, rt)) else {
        return false;
    };
    opening.detach();
    queue.run();
    let nobody = Awaiter::Outside(Nobody);
    let one_is_in = matches!(first.poll(&nobody), Poll::Ready(Ok(Said::CameIn)));
    one_is_in & matches!(second.poll(&nobody), Poll::Ready(Ok(Said::CameIn)))
}

#[test]
fn visitors_come_in_once_the_door_is_open(rt: HostRuntime) -> io::Result<()> {
    let alloc = rt.alloc();
    let door = ConcurrentQueue::bounded(alloc, 2).map_err(|_| ErrorKind::OutOfMemory)?;
    let door: &'static Door = Box::leak(Box::new(alloc, door)?);
    let (realm, places) = (Realm::leak(rt, alloc)?, Places::leak(alloc, 8)?);
    assert!(rt; come_in(rt, realm, places, door));
    Ok(())
}
