//! Between threads: each loop is bounded, and each answer the same whatever the schedule.
use crate::board::{Board, Ear, Reading};
use async_task::Wake;
use blocking::{ThreadWaker, block_on};
use reactor::{Reactor, Source};
use std::alloc::AllocGlobal;
use std::sync::Wait;
use std::sync::atomic::AtomicU64;
use std::sync::atomic::Ordering::SeqCst;
use std::time::{Clock, Duration};
use std::{io, thread};

/// Writes so often one to the pipe, and each time says so.
fn write<R: Wait>(rt: &R, board: &Board, pipe: &AtomicU64, key: usize, times: u64) -> u64 {
    let mut written = 0u64;
    for _ in 0..times {
        pipe.fetch_add(1, SeqCst);
        if board.say(rt, key).is_ok() {
            written = written.saturating_add(1);
        }
    }
    written
}

/// Reads so much from the pipe, on this thread. Each time a first reader gives up once it would wait, and leaves its waker.
fn read<R: Wait + Copy + Drop + AllocGlobal>(
    rt: &R,
    source: &Source<ThreadWaker, R>,
    pipe: &AtomicU64,
    times: u64,
    most: u64,
) -> u64 {
    let mut count = 0u64;
    for time in 1..=times {
        for is_hasty in [true, false] {
            let most = most.saturating_mul(time);
            let reading = Reading {
                source,
                pipe,
                count,
                most,
                is_hasty,
            };
            if let Ok(now) = block_on::<ThreadWaker, _, _>(rt, rt.alloc(), reading) {
                count = now;
            }
        }
    }
    count
}

/// Two threads write 500 to a pipe each, and two read these 10 times 50 or more, while one hears of it.
#[test]
fn what_is_written_is_read(rt: HostRuntime) -> io::Result<()> {
    let alloc = rt.alloc();
    let reactor = Reactor::<ThreadWaker, _>::new(rt, alloc)?;
    let (first, second) = (reactor.source()?, reactor.source()?);
    let (one, two) = (AtomicU64::new(0), AtomicU64::new(0));
    let board = Board::new(alloc);
    let reads_one = || read(&rt, &first, &one, 10, 50);
    let reads_two = || read(&rt, &second, &two, 10, 50);
    let writes_one = || write(&rt, &board, &one, first.key(), 500);
    let writes_two = || write(&rt, &board, &two, second.key(), 500);
    let mut ear = Ear { rt, board: &board };
    let drives = || reactor.drive(&mut ear, || None);
    let works = || {
        let writes = || thread::join(&rt, writes_one, writes_two);
        let reads = || thread::join(&rt, reads_one, reads_two);
        let done = thread::join(&rt, writes, reads);
        reactor.close();
        board.ring();
        done
    };
    let (driven, (written, read)) = thread::join(&rt, drives, works);
    driven?;
    assert!(rt; (written.0 == 500) & (written.1 == 500));
    assert!(rt; (read.0 == 500) & (read.1 == 500));
    Ok(())
}

/// A close tells who waits, 200 times, whether it has begun to wait or not.
#[test]
fn a_close_tells_who_waits(rt: HostRuntime) -> io::Result<()> {
    let alloc = rt.alloc();
    let mut ended = 0u64;
    for _ in 0..200 {
        let reactor = Reactor::<ThreadWaker, _>::new(rt, alloc)?;
        let (first, second) = (reactor.source()?, reactor.source()?);
        let pipe = AtomicU64::new(0);
        let waits_one = || read(&rt, &first, &pipe, 1, 1);
        let waits_two = || read(&rt, &second, &pipe, 1, 1);
        let waits = || thread::join(&rt, waits_one, waits_two);
        let (counts, _closed) = thread::join(&rt, waits, || reactor.close());
        if counts == (0, 0) && reactor.source().is_err() {
            ended = ended.saturating_add(1);
        }
    }
    assert!(rt; ended == 200);
    Ok(())
}
