//! Many who listen for one event.
use crate::{Fault, Timing};
use async_task::{Future, NoMemory, Nobody, Poll, Runtime};
use std::alloc::Global;
use std::collections::VecDeque;
use std::rt::Clock;
use std::time::Instant;
use waiting::{Event, Listener};

/// Tells the one who has listened longest, who then listens anew.
pub fn tell<R: Runtime + Clock>(
    rt: R,
    alloc: Global,
    crowd: u64,
    ops: u64,
) -> Result<Timing, Fault> {
    let event = Event::<Nobody, R>::new(rt, alloc)?;
    let mut listeners = crowd_of(alloc, &event, crowd)?;
    let mut moved = 0u64;
    let start = Instant::now(&rt)?;
    for _ in 0..ops {
        moved = moved.wrapping_add(u64::from(event.notify()));
        if is_told(listeners.pop_front()) {
            listeners.push_back(listener(&event)?)?;
        }
    }
    Timing::since(&rt, start, moved)
}

/// Drops the one who has listened longest, and another listens.
pub fn leave<R: Runtime + Clock>(
    rt: R,
    alloc: Global,
    crowd: u64,
    ops: u64,
) -> Result<Timing, Fault> {
    let event = Event::<Nobody, R>::new(rt, alloc)?;
    let mut listeners = crowd_of(alloc, &event, crowd)?;
    let mut moved = 0u64;
    let start = Instant::now(&rt)?;
    for _ in 0..ops {
        moved = moved.wrapping_add(u64::from(listeners.pop_front().is_some()));
        listeners.push_back(listener(&event)?)?;
    }
    Timing::since(&rt, start, moved)
}

/// So many who listen.
fn crowd_of<R: Runtime>(
    alloc: Global,
    event: &Event<Nobody, R>,
    crowd: u64,
) -> Result<VecDeque<Listener<Nobody, R>>, Fault> {
    let mut listeners = VecDeque::new(alloc);
    for _ in 0..crowd {
        listeners.push_back(listener(event)?)?;
    }
    Ok(listeners)
}

/// One who listens, and has left its waker.
fn listener<R: Runtime>(event: &Event<Nobody, R>) -> Result<Listener<Nobody, R>, NoMemory> {
    let mut listener = event.listen()?;
    let _pending = listener.poll(&Nobody);
    Ok(listener)
}

/// Whether one was there, and was notified.
fn is_told<R: Runtime>(listener: Option<Listener<Nobody, R>>) -> bool {
    match listener {
        Some(mut listener) => matches!(listener.poll(&Nobody), Poll::Ready(())),
        None => false,
    }
}
