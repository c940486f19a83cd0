//! The program's futures and its waker, and what is seen of them.
use async_task::{Future, Poll, Wake};
use std::alloc::Global;
use std::fmt::{self, Write};
use std::sync::atomic::AtomicU64;
use std::sync::atomic::Ordering::SeqCst;

/// How many futures were dropped so far.
pub type Drops = AtomicU64;

/// A future that wakes itself so often, and then gives its name. Its drop is counted.
pub struct Job {
    pub name: u64,
    pub wakes: u64,
    pub drops: &'static Drops,
}

impl Job {
    /// Its name. It goes, and was none that counts.
    pub fn into_name(self) -> u64 {
        let Job {
            name,
            wakes: _,
            drops: _,
        } = self;
        name
    }
}

impl Drop for Job {
    fn drop(self) {
        let Job {
            name: _,
            wakes: _,
            drops,
        } = self;
        drops.fetch_add(1, SeqCst);
    }
}

impl<K: Wake> Future<K> for Job {
    type Output = u64;

    fn poll(&mut self, waker: &K) -> Poll<u64> {
        if self.wakes == 0 {
            return Poll::Ready(self.name);
        }
        self.wakes -= 1;
        waker.wake_by_ref();
        Poll::Pending
    }
}

/// A waker from outside, each copy of which takes memory.
#[derive(Drop)]
pub struct Bell {
    pub alloc: Global,
    pub memory: Box<u64>,
}

impl Wake for Bell {
    ghost is_same = { λ a b. Unit {0} };

    fn wake(self) {}

    fn wake_by_ref(&self) {}

    fn clone(&self) -> Option<Self> {
        match Box::new(self.alloc, *self.memory) {
            Ok(memory) => Some(Bell {
                alloc: self.alloc,
                memory,
            }),
            Err(_) => None,
        }
    }

    fn will_wake(&self, other: &Self) -> bool {
        let _ = other;
        true
    }
}

/// The field of an executor from which on a poll of a tick or a run may change what it shows, even if it is refused.
const SLEEPING: &str = "local_runners";

/// A number made of a text, or of what stands in it before a word.
#[derive(Drop)]
struct Digest {
    number: u64,
    /// The text is left from `SLEEPING` on.
    has_end: bool,
    has_ended: bool,
}

impl Write for Digest {
    fn write_str(&mut self, text: &str) -> fmt::Result {
        self.has_ended = self.has_ended | (self.has_end & (text == SLEEPING));
        if !self.has_ended {
            for byte in text.as_bytes() {
                self.number = self.number.wrapping_mul(31).wrapping_add(*byte as u64);
            }
        }
        Ok(())
    }
}

/// A number made of what a value shows by `Debug`, or of what stands before its runs' own queues and its sleepers: two looks agree
/// where it shows the same. It takes no memory.
pub fn shown<D: fmt::Debug>(value: &D, all: bool) -> u64 {
    let mut digest = Digest {
        number: 7,
        has_end: !all,
        has_ended: false,
    };
    let _ = write!(digest, "{value:?}");
    digest.number
}
