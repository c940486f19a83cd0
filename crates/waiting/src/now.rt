//! Futures that wait for nothing, for ever, or once so that others go first.
ghost use Rattle.std.specs.Prelude.{◌≡◌, None, IfSome, IsSome};
ghost use Rattle.async_task.specs.declared.poll.Poll.TheVariants as poll;

use crate::called::Called;
use async_task::{Future, Poll, Wake};
use std::marker::PhantomData;

/// A future that is ready at its first poll. Polled again it is pending for ever.
#[derive(Drop)]
pub struct Ready<T> {
    pub(crate) value: Option<T>,
}

/// A future that is never ready.
#[derive(Drop)]
pub struct Never<T> {
    pub(crate) output: PhantomData<T>,
}

/// A future that is pending once, having called its waker so that others go first, and is then ready.
#[derive(Drop)]
pub struct YieldNow {
    /// Set from its first poll on.
    pub(crate) called: Option<Called>,
}

impl<K, T> Future<K> for Ready<T> {
    type Output = T;

    fn poll(&mut self, _waker: &K) -> Poll<T>
        ensures given { IfSome self.old.value (λ value. result ≡ poll.Ready value) }
        ensures spent { self.old.value ≡ None → result ≡ poll.Pending }
        ensures gone { self.new.value ≡ None }
    {
        match self.value.take() {
            Some(value) => Poll::Ready(value),
            None => Poll::Pending,
        }
    }
}

impl<K, T> Future<K> for Never<T> {
    type Output = T;

    fn poll(&mut self, _waker: &K) -> Poll<T>
        ensures { result ≡ poll.Pending }
    {
        Poll::Pending
    }
}

impl<K: Wake> Future<K> for YieldNow {
    type Output = ();

    fn poll(&mut self, waker: &K) -> Poll<()>
        ensures first { self.old.called ≡ None → result ≡ poll.Pending }
        ensures then { IsSome self.old.called → result ≡ poll.Ready tt }
        ensures called { IsSome self.new.called }
    {
        match self.called {
            Some(_) => Poll::Ready(()),
            None => {
                self.called = Some(Called::by(waker));
                Poll::Pending
            }
        }
    }
}
