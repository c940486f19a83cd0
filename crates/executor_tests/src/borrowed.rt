//! An output that borrows.
use async_executor::{ExRealm, Executor};
use async_task::{Awaiter, Future, Nobody, Poll, Runtime, Wake};
use std::alloc::Global;
use std::test::Fail;

/// A text that is borrowed.
#[derive(Clone, Copy)]
struct Text(&'static str);

/// Gives its text.
#[derive(Drop)]
struct Says(Text);

impl<K: Wake> Future<K> for Says {
    type Output = Text;

    fn poll(&mut self, _waker: &K) -> Poll<Text> {
        Poll::Ready(self.0)
    }
}

/// Whether the text is there once its executor is gone.
fn outlives<R: Runtime>(rt: R, alloc: Global, realm: &'static ExRealm<Text, Nobody, R>) -> bool {
    let Ok(executor) = Executor::new(rt, alloc, realm, 1) else {
        return false;
    };
    let Ok(mut task) = executor.spawn(Says(Text("hello"))) else {
        return false;
    };
    let has_ticked = executor.try_tick();
    drop(executor);
    match task.poll(&Awaiter::Outside(Nobody)) {
        Poll::Ready(Ok(Text(text))) => has_ticked & (text == "hello"),
        _ => false,
    }
}

#[test]
fn a_borrowed_text_outlives_its_executor(rt: HostRuntime) -> Result<(), Fail> {
    let realm = ExRealm::<Text, Nobody, HostRuntime>::leak(rt, rt.alloc())?;
    assert!(rt; outlives(rt, rt.alloc(), realm));
    Ok(())
}
