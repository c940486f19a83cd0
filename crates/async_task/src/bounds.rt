//! Short names for bounds that many types share.
use crate::wake::Wake;
use std::sync::Wait;

/// The output of a task's future. Every type with these bounds is one.
pub trait Output: Drop + 'static {}

impl<T: Drop + 'static> Output for T {}

/// A waker from outside, which a task keeps for its awaiter. Every type with these bounds is one.
pub trait OutsideWaker: Wake + Drop + 'static {}

impl<W: Wake + Drop + 'static> OutsideWaker for W {}

/// The runtime value that calls take and keep. Every type with these bounds is one.
pub trait Runtime: Wait + Copy + Drop + 'static {}

impl<R: Wait + Copy + Drop + 'static> Runtime for R {}
