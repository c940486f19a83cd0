//! The types of async_executor, for what a script's futures give and what awaits them from outside.
use async_executor::{ExCancel, ExRealm, ExTask, ExWaker};
use player_parts::{Bell, Gift};

/// Where the tasks of a script lie.
pub type ScriptRealm<R> = ExRealm<Gift, Bell, R>;

/// The waker that a script's futures, handles, ticks and runs are polled with.
pub type ScriptWaker<R> = ExWaker<Gift, Bell, R>;

/// A future's handle before it was cancelled.
pub type ScriptTask<R> = ExTask<Gift, Bell, R>;

/// A future's handle once it was cancelled.
pub type ScriptCancel<R> = ExCancel<Gift, Bell, R>;
