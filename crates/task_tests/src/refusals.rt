//! What a task does where no copy of a waker can be had. That a spawn which is refused memory gives all back is in its contract.
use crate::calls::{Stage, shown, text_of};
use crate::parts::{Tasks, drop_cancel};
use async_task::{NoMemory, Poll, TaskError};

/// A poll that can't copy its waker leaves the task as it was: the awaiter of the poll before stays, and the handle may be
/// polled again. Once there is an output no copy is needed.
#[test]
fn a_refused_poll_leaves_the_task_as_it_was(rt: HostRuntime) {
    let stage = Stage::new(rt, rt.alloc(), Tasks::leak(rt, rt.alloc()));
    let (runnable, mut task) = stage.task(0, false);
    stage.poll(&mut task, &stage.bell(false), Poll::Pending);
    let text = text_of(&rt, &task);
    let others = stage.counted_apart();
    let short = others.bell(true);
    others.poll(&mut task, &short, Poll::Ready(Err(TaskError::NoMemory)));
    shown(&rt, &task, text.as_str());
    stage.run(runnable);
    stage.rings(1);
    others.rings(0);
    others.poll(&mut task, &short, Poll::Ready(Ok(3)));
    others.poll(&mut task, &short, Poll::Ready(Err(TaskError::TaskClosed)));
}

/// The first poll of a `Cancel` cancels, where it is refused too. Once the future is dropped, a poll needs no copy.
#[test]
fn a_refused_poll_of_a_cancel_has_cancelled(rt: HostRuntime) {
    let stage = Stage::new(rt, rt.alloc(), Tasks::leak(rt, rt.alloc()));
    let (runnable, task) = stage.task(9, false);
    stage.run(runnable);
    stage.seen((1, 0, 0, 0));
    let mut cancel = task.fallible().cancel();
    for _ in 0..2 {
        stage.poll_cancel(&mut cancel, Poll::Ready(Err(NoMemory)));
        stage.seen((1, 1, 0, 0));
    }
    stage.run_next();
    stage.poll_cancel(&mut cancel, Poll::Ready(Ok(None)));
    stage.rings(0);
    drop_cancel(cancel);
    stage.seen((1, 1, 1, 1));
}
