//! A future that sends its output, and so gives `()`.
ghost use Rattle.std.specs.Prelude.{◌≡◌, None, Some};
ghost use Rattle.pool.specs.Answering.{HasAnswered};

use async_task::{Future, Output, Poll, Runtime, Wake};
use waiting::oneshot::Sender;

/// A future that polls one of output `X`, sends the output, and gives `()`. Where nobody receives any more, the output is dropped.
/// Dropped before that, it notifies the receiver that nothing comes.
#[derive(Drop)]
pub struct Answering<F: Drop, X: Output, K: Wake + Drop, R: Runtime> {
    future: F,
    to: Option<Sender<X, K, R>>,
}

impl<F: Drop, X: Output, K: Wake + Drop, R: Runtime> Answering<F, X, K, R> {
    /// Makes one that sends its output there.
    pub(crate) fn to(future: F, to: Sender<X, K, R>) -> Self
        ensures future { result.future ≡ future }
        ensures to { result.to ≡ Some to }
    {
        Answering {
            future,
            to: Some(to),
        }
    }

    /// Makes one whose output is dropped: a refused spawn hands it back.
    pub(crate) fn unanswered(future: F) -> Self
        ensures future { result.future ≡ future }
        ensures to { result.to ≡ None }
    {
        Answering { future, to: None }
    }

    /// The future that it polls. The receiver is notified that nothing comes.
    pub fn into_inner(self) -> F
        ensures { result ≡ self.future }
    {
        let Answering { future, to: _ } = self;
        future
    }
}

impl<F, X: Output, K: Wake + Drop, R: Runtime> Future<K> for Answering<F, X, K, R>
where
    F: Future<K, Output = X> + Drop,
{
    type Output = ();

    /// Ready once the output was sent; it sends nothing after that.
    fn poll(&mut self, waker: &K) -> Poll<()>
        ensures { HasAnswered self.old.to self.new.to result }
    {
        match self.future.poll(waker) {
            Poll::Pending => Poll::Pending,
            Poll::Ready(output) => {
                if let Some(to) = self.to.take() {
                    let _ = to.send(output);
                }
                Poll::Ready(())
            }
        }
    }
}
