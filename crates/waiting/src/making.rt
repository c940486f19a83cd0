//! Functions that make the futures.
ghost use Rattle.std.specs.Prelude.{◌≡◌, None, Some};
ghost use Rattle.waiting.specs.declared.both.Awaited.TheVariants as awaited;

use crate::both::{Awaited, Join};
use crate::first::Select;
use crate::now::{Never, Ready, YieldNow};
use std::marker::PhantomData;

/// Makes a future that is ready with this value. Takes no memory.
///
/// ```
/// assert!(rt; matches!(ready(1u64).poll(&Nobody), Poll::Ready(1)));
/// ```
pub fn ready<T>(value: T) -> Ready<T>
    ensures { result.value ≡ Some value }
{
    Ready { value: Some(value) }
}

/// Makes a future that is never ready. Takes no memory.
///
/// ```
/// assert!(rt; matches!(pending::<u64>().poll(&Nobody), Poll::Pending));
/// ```
pub fn pending<T>() -> Never<T> {
    Never {
        output: PhantomData,
    }
}

/// Makes a future that lets others go first, once. Takes no memory.
///
/// ```
/// let mut yields = yield_now();
/// assert!(rt; matches!(yields.poll(&Nobody), Poll::Pending));
/// assert!(rt; matches!(yields.poll(&Nobody), Poll::Ready(())));
/// ```
pub fn yield_now() -> YieldNow
    ensures { result.called ≡ None }
{
    YieldNow { called: None }
}

/// Awaits two futures at once. Takes no memory.
///
/// ```
/// let mut both = join(ready(1u64), yield_now());
/// assert!(rt; matches!(both.poll(&Nobody), Poll::Pending));
/// assert!(rt; matches!(both.poll(&Nobody), Poll::Ready((1, ()))));
/// ```
pub fn join<A, X, B, Y>(first: A, second: B) -> Join<A, X, B, Y>
    ensures first { result.first ≡ awaited.Waiting first }
    ensures second { result.second ≡ awaited.Waiting second }
{
    Join {
        first: Awaited::Waiting(first),
        second: Awaited::Waiting(second),
    }
}

/// Awaits the first of two futures. Takes no memory.
///
/// ```
/// let mut first = select(pending::<u64>(), yield_now());
/// assert!(rt; matches!(first.poll(&Nobody), Poll::Pending));
/// assert!(rt; matches!(first.poll(&Nobody), Poll::Ready(Either::Right(((), _)))));
/// ```
pub fn select<A, B>(first: A, second: B) -> Select<A, B>
    ensures { result.both ≡ Some (first, second) }
{
    Select {
        both: Some((first, second)),
    }
}
