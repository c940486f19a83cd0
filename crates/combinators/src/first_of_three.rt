ghost use Rattle.combinators.specs.First.{HasSelected3};

use async_task::{Future, Poll};

/// One of three.
#[derive(Clone, Copy, Debug, PartialEq, Eq, Drop)]
pub enum Either3<A, B, C> {
    First(A),
    Second(B),
    Third(C),
}

/// The output of `Select3`: that of one future, and the two others in their order.
type Selected<A, X, B, Y, C, Z> = Either3<(X, B, C), (Y, A, C), (Z, A, B)>;

/// A future that is ready as soon as one of three is ready, with its output and the two others in their order, which may be
/// awaited on. Where several are ready it answers with the one that comes first here, and doesn't poll those after it. That one is
/// dropped at once. Polled again it is pending. Dropped, it drops all three.
#[derive(Drop)]
pub struct Select3<A, B, C> {
    pub(crate) all: Option<(A, B, C)>,
}

impl<K, A, B, C> Future<K> for Select3<A, B, C>
where
    A: Future<K> + Drop,
    B: Future<K> + Drop,
    C: Future<K> + Drop,
{
    type Output = Selected<A, A::Output, B, B::Output, C, C::Output>;

    fn poll(&mut self, waker: &K) -> Poll<Selected<A, A::Output, B, B::Output, C, C::Output>>
        ensures { HasSelected3 self.old.all self.new.all result }
    {
        let Some((mut first, mut second, mut third)) = self.all.take() else {
            return Poll::Pending;
        };
        if let Poll::Ready(output) = first.poll(waker) {
            return Poll::Ready(Either3::First((output, second, third)));
        }
        if let Poll::Ready(output) = second.poll(waker) {
            return Poll::Ready(Either3::Second((output, first, third)));
        }
        if let Poll::Ready(output) = third.poll(waker) {
            return Poll::Ready(Either3::Third((output, first, second)));
        }
        self.all = Some((first, second, third));
        Poll::Pending
    }
}
