use async_task::Wake;

/// That a waker was called: none is made elsewhere, so who has one has called it.
#[derive(Drop)]
pub struct Called {
    own: (),
}

impl Called {
    /// Calls the waker.
    pub fn by<K: Wake>(waker: &K) -> Called {
        waker.wake_by_ref();
        Called { own: () }
    }
}
