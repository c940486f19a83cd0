//! Of an executor of one thread only its wakers may go to another thread. The edits in `wrong/` send what else there is.
use async_task::{Future, Nobody, Poll};
use local_executor::{
    LocalExWaker, LocalExecutor, LocalHandle, LocalRun, LocalTick, StaticLocalExecutor,
};
use std::sync::Wait;

/// Gives its number. It may itself go to any thread.
#[derive(Drop)]
pub struct Ready(pub u64);

impl<K> Future<K> for Ready {
    type Output = u64;

    fn poll(&mut self, _waker: &K) -> Poll<u64> {
        Poll::Ready(self.0)
    }
}

/// Is never ready. It may itself go to any thread.
#[derive(Drop)]
pub struct Never;

impl<K> Future<K> for Never {
    type Output = u64;

    fn poll(&mut self, _waker: &K) -> Poll<u64> {
        Poll::Pending
    }
}

/// Has what may go to another thread.
fn send<X: Send + Drop>(value: X) {
    drop(value);
}

/// Sends a waker, and keeps the executor, a handle and a tick here.
pub fn send_waker<R: Wait + Copy + Drop + Send + Sync>(
    executor: &LocalExecutor<Ready, u64, Nobody, R>,
    handle: LocalHandle<u64, Nobody, R>,
    tick: LocalTick<'_, Ready, u64, Nobody, R>,
    waker: LocalExWaker<Nobody, R>,
) {
    send(waker);
    drop(tick);
    drop(handle);
    executor.try_tick();
}

/// Sends a waker, and lets its executor go here.
pub fn send_last_waker<R: Wait + Copy + Drop + Send + Sync>(
    executor: LocalExecutor<Ready, u64, Nobody, R>,
    last: LocalExWaker<Nobody, R>,
) {
    send(last);
    drop(executor);
}

/// Sends a waker, and keeps a run and its static executor here.
pub fn send_waker_of_static<R: Wait + Copy + Drop + Send + Sync>(
    executor: &StaticLocalExecutor<Ready, u64, Nobody, R>,
    run: LocalRun<'_, Ready, u64, Nobody, R, Never>,
    own_waker: LocalExWaker<Nobody, R>,
) {
    send(own_waker);
    drop(run);
    executor.try_tick();
}
