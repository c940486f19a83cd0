//! What each kind of step on a ring shows. These types are for the proofs alone.
ghost use Rattle.std.specs.Prelude.{[]};
ghost use Rattle.concurrent_queue.specs.BoundedRule.{saw_tail, saw_head, looked, looked_behind, looked_at_tail, stamped, appended, took, displaced};
ghost use Rattle.concurrent_queue.specs.BoundedRule.{advanced, spent, closed, gave};

use crate::bounded::rule::Doing;
use atomic_table::Play;

/// The first look of a call, at the tail.
pub struct BeginTail;

impl<T> Play<Option<T>, Doing> for BeginTail {
    ghost then = { λ s m r m'. saw_tail [] m r m' };
}

/// The first look of a call, at the head.
pub struct BeginHead;

impl<T> Play<Option<T>, Doing> for BeginHead {
    ghost then = { λ s m r m'. saw_head [] m r m' };
}

/// A later load of the tail, as it stands.
pub struct SeeTail;

impl<T> Play<Option<T>, Doing> for SeeTail {
    ghost then = { λ s m r m'. saw_tail m.0.found m r m' };
}

/// A later load of the head, as it stands.
pub struct SeeHead;

impl<T> Play<Option<T>, Doing> for SeeHead {
    ghost then = { λ s m r m'. saw_head m.0.found m r m' };
}

/// A load of the stamp of the place that the seat looks at.
pub struct SeeStamp;

impl<T> Play<Option<T>, Doing> for SeeStamp {
    ghost then = { λ s m r m'. stamped s.word m r m' };
}

/// A load of which the seat keeps the number alone.
pub struct Look;

impl<T> Play<Option<T>, Doing> for Look {
    ghost then = { λ s m r m'. looked m r m' };
}

/// The same of the head, which is at most as many places behind the tail that the seat saw as the ring has.
pub struct LookBehind;

impl<T> Play<Option<T>, Doing> for LookBehind {
    ghost then = { λ s m r m'. looked_behind s.slots m r m' };
}

/// The same of the tail, of which the seat keeps too whether it has the mark.
pub struct LookAtTail;

impl<T> Play<Option<T>, Doing> for LookAtTail {
    ghost then = { λ s m r m'. looked_at_tail m r m' };
}

/// The exchange of the tail, which gives the seat the place to write to; or a look at the tail, where another one was found.
pub struct Append;

impl<T> Play<Option<T>, Doing> for Append {
    ghost then = { λ s m r m'. appended s.first m r m' };
}

/// The exchange of the head, which gives the seat the place to read; or a look at the head, where another one was found.
pub struct Take;

impl<T> Play<Option<T>, Doing> for Take {
    ghost then = { λ s m r m'. took s.first m r m' };
}

/// A take that an append has to follow.
pub struct Displace;

impl<T> Play<Option<T>, Doing> for Displace {
    ghost then = { λ s m r m'. displaced s.first m r m' };
}

/// The append that follows a displacement.
pub struct Advance;

impl<T> Play<Option<T>, Doing> for Advance {
    ghost then = { λ s m r m'. advanced m r m' };
}

/// The close by a push of one item too many.
pub struct Spend;

impl<T> Play<Option<T>, Doing> for Spend {
    ghost then = { λ s m r m'. spent s.first m r m' };
}

/// The close.
pub struct Shut;

impl<T> Play<Option<T>, Doing> for Shut {
    ghost then = { λ s m r m'. closed m r m' };
}

/// The write or the read is done.
pub struct Give;

impl<T> Play<Option<T>, Doing> for Give {
    ghost then = { λ s m r m'. gave m r m' };
}
