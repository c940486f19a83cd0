//! What each kind of step on a single slot shows. These types are for the proofs alone.
ghost use Rattle.concurrent_queue.specs.SingleRule.{began, closed, looked, claimed, fetched, returned};

use crate::single::rule::Doing;
use atomic_table::Play;

/// The first load of a call.
pub struct Begin;

impl<T> Play<Option<T>, Doing> for Begin {
    ghost then = { λ s m n m'. began m n m' };
}

/// The close.
pub struct Shut;

impl<T> Play<Option<T>, Doing> for Shut {
    ghost then = { λ s m n m'. closed m n m' };
}

/// Another load.
pub struct Look;

impl<T> Play<Option<T>, Doing> for Look {
    ghost then = { λ s m n m'. looked m n m' };
}

/// The append or the displacement.
pub struct Claim;

impl<T> Play<Option<T>, Doing> for Claim {
    ghost then = { λ s m n m'. claimed s.first m n m' };
}

/// The take.
pub struct Take;

impl<T> Play<Option<T>, Doing> for Take {
    ghost then = { λ s m n m'. fetched s.first m n m' };
}

/// The write or the read is done.
pub struct Return;

impl<T> Play<Option<T>, Doing> for Return {
    ghost then = { λ s m n m'. returned m n m' };
}
