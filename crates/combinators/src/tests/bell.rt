use async_task::Wake;
use std::alloc::{AllocError, Global};
use std::sync::Arc;
use std::sync::atomic::AtomicU64;
use std::sync::atomic::Ordering::SeqCst;

/// A waker whose calls are counted.
#[derive(Drop)]
pub struct Bell {
    calls: Arc<AtomicU64>,
}

impl Bell {
    pub fn new(alloc: Global) -> Result<Bell, AllocError> {
        match Arc::new(alloc, AtomicU64::new(0)) {
            Ok(calls) => Ok(Bell { calls }),
            Err(_) => Err(AllocError),
        }
    }

    /// How often it and its copies were called.
    pub fn calls(&self) -> u64 {
        self.calls.load(SeqCst)
    }
}

impl Wake for Bell {
    ghost is_same = { λ a b. Unit {0} };

    fn wake(self) {
        self.wake_by_ref();
    }

    fn wake_by_ref(&self) {
        self.calls.fetch_add(1, SeqCst);
    }

    fn clone(&self) -> Option<Self> {
        match Arc::try_clone(&self.calls) {
            Ok(calls) => Some(Bell { calls }),
            Err(_) => None,
        }
    }

    fn will_wake(&self, _other: &Self) -> bool {
        false
    }
}
