//! The first of two futures.
ghost use Rattle.waiting.specs.First.{HasSelected};

use async_task::{Future, Poll};

/// One of two.
#[derive(Clone, Copy, Debug, PartialEq, Eq, Drop)]
pub enum Either<A, B> {
    Left(A),
    Right(B),
}

/// A future that is ready as soon as one of two is ready, with its output and the other future, which may be awaited on. Where
/// both are ready it answers with the first, and doesn't poll the second. Dropped, it drops both.
#[derive(Drop)]
pub struct Select<A, B> {
    pub(crate) both: Option<(A, B)>,
}

impl<K, A, B> Future<K> for Select<A, B>
where
    A: Future<K> + Drop,
    B: Future<K> + Drop,
{
    type Output = Either<(A::Output, B), (B::Output, A)>;

    fn poll(&mut self, waker: &K) -> Poll<Either<(A::Output, B), (B::Output, A)>>
        ensures { HasSelected self.old.both self.new.both result }
    {
        let Some((mut first, mut second)) = self.both.take() else {
            return Poll::Pending;
        };
        if let Poll::Ready(output) = first.poll(waker) {
            return Poll::Ready(Either::Left((output, second)));
        }
        if let Poll::Ready(output) = second.poll(waker) {
            return Poll::Ready(Either::Right((output, first)));
        }
        self.both = Some((first, second));
        Poll::Pending
    }
}
