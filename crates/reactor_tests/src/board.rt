//! A poller between threads, and pipes of which it hears.
use async_task::{Future, Poll};
use blocking::ThreadWaker;
use reactor::{Heard, Poller, Source, Way};
use std::alloc::{AllocError, Global};
use std::collections::VecDeque;
use std::io::{self, ErrorKind};
use std::sync::atomic::Ordering::SeqCst;
use std::sync::atomic::{AtomicBool, AtomicU64};
use std::sync::{Condvar, Mutex, Wait};
use std::time::{Clock, Duration};

/// What was said and not yet heard, and whether it was rung.
#[derive(Drop)]
pub struct Board {
    said: Mutex<VecDeque<usize>>,
    is_rung: AtomicBool,
    changed: Condvar,
}

impl Board {
    pub fn new(alloc: Global) -> Self {
        Board {
            said: Mutex::new(VecDeque::new(alloc)),
            is_rung: AtomicBool::new(false),
            changed: Condvar::new(),
        }
    }

    /// The source of this key can be read.
    pub fn say<R: Wait>(&self, rt: &R, key: usize) -> Result<(), AllocError> {
        self.said.lock(rt).push_back(key)?;
        self.changed.notify_all();
        Ok(())
    }

    /// Ends the present or the next wait.
    pub fn ring(&self) {
        self.is_rung.store(true, SeqCst);
        self.changed.notify_all();
    }
}

/// Who hears what is said on a board.
#[derive(Drop)]
pub struct Ear<'a, R: Wait + Clock + Copy + Drop> {
    pub rt: R,
    pub board: &'a Board,
}

impl<R: Wait + Clock + Copy + Drop> Poller for Ear<'_, R> {
    fn wait(&mut self, longest: Option<Duration>) -> io::Result<()> {
        let seen = self.board.changed.notifications();
        let is_silent = self.board.said.lock(&self.rt).is_empty();
        if is_silent && !self.board.is_rung.swap(false, SeqCst) {
            let longest = longest.unwrap_or(Duration::MAX);
            self.board.changed.sleep(&self.rt, seen, longest);
        }
        Ok(())
    }

    fn heard(&mut self) -> Option<Heard> {
        let key = self.board.said.lock(&self.rt).pop_front();
        match key {
            Some(key) => Some(Heard {
                key,
                is_readable: true,
                is_writable: false,
                is_read_closed: false,
                is_write_closed: false,
            }),
            None => None,
        }
    }
}

/// Reads all that is in a pipe, for one reader at a time.
fn read(pipe: &AtomicU64) -> io::Result<u64> {
    match pipe.swap(0, SeqCst) {
        0 => Err(ErrorKind::WouldBlock.into()),
        count => Ok(count),
    }
}

/// Reads from a pipe until it has read so much, or the reactor is closed. One that is hasty gives up once it would wait.
#[derive(Drop)]
pub struct Reading<'a, R: Wait + Copy + Drop> {
    pub source: &'a Source<ThreadWaker, R>,
    pub pipe: &'a AtomicU64,
    pub count: u64,
    pub most: u64,
    pub is_hasty: bool,
}

impl<R: Wait + Copy + Drop> Future<ThreadWaker> for Reading<'_, R> {
    type Output = u64;

    fn poll(&mut self, waker: &ThreadWaker) -> Poll<u64> {
        for _ in 0..u64::MAX {
            if self.count >= self.most {
                return Poll::Ready(self.count);
            }
            let guard = match self.source.poll_ready(Way::Read, waker) {
                Poll::Ready(Ok(guard)) => guard,
                Poll::Ready(Err(_closed)) => return Poll::Ready(self.count),
                Poll::Pending if self.is_hasty => return Poll::Ready(self.count),
                Poll::Pending => return Poll::Pending,
            };
            let pipe = self.pipe;
            match guard.try_io(|| read(pipe)) {
                Ok(Ok(count)) => self.count = self.count.saturating_add(count),
                Ok(Err(_error)) => return Poll::Ready(self.count),
                Err(_would_block) => {}
            }
        }
        Poll::Pending
    }
}
