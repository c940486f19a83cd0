use crate::called::Called;

/// By what one who takes in is polled again.
#[derive(Drop)]
pub enum Rest {
    /// Its waker is left with the permits or with the descriptors. Or no descriptor comes any more.
    Waits,
    /// Its waker was called already.
    Called(Called),
}
