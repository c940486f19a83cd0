use async_task::Wake;

/// Proof that a waker was called. Nothing else makes one, so whoever has one has called the waker.
#[derive(Drop)]
pub struct Called {
    own: (),
}

impl Called {
    /// Calls the waker.
    pub fn by<K: Wake>(waker: &K) -> Called {
        waker.wake_by_ref();
        Called { own: () }
    }
}
