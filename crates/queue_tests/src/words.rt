//! The queues of the tests, and what they compare with. Each of these compares in one place what the tests compare often, so
//! that a call of it is cheap to prove.
use concurrent_queue::ConcurrentQueue;
use std::alloc::AllocGlobal;
use std::fmt::{Debug, Display};
use std::process::Abort;

/// The two are equal.
pub fn same<R: Abort, T: Drop + PartialEq + Debug>(rt: &R, it: T, want: T) {
    assert_eq!(rt; it, want);
}

/// It is so.
pub fn holds<R: Abort>(rt: &R, it: bool) {
    assert!(rt; it);
}

/// It prints as this text.
pub fn prints<R: Abort + AllocGlobal, T: Display>(rt: &R, it: &T, want: &str) {
    let text = format!(in rt.alloc(); "{it}").expect(rt, "memory");
    same(rt, text.as_str(), want);
}

/// Its Debug text is this one.
pub fn debugs<R: Abort + AllocGlobal, T: Debug>(rt: &R, it: &T, want: &str) {
    prints(rt, &format_args!("{it:?}"), want);
}

/// A queue of this capacity (0 for a chain).
pub fn queue_of<R: Abort + AllocGlobal, T>(rt: &R, capacity: usize) -> ConcurrentQueue<T> {
    if capacity == 0 {
        return ConcurrentQueue::unbounded(rt.alloc());
    }
    ConcurrentQueue::bounded(rt.alloc(), capacity).expect(rt, "memory")
}
