//! What was let go of a realm's tasks, and which call has to close it.
use crate::entry::Unlocked;
use crate::names::ExRealm;
use async_task::{Output, OutsideWaker, Runtime, close_returned};

/// The duty of an executor to close what was let go of tasks in its realm, also at its end: it has no drop.
pub struct ClosesReturned {
    own: (),
}

/// Proof that this call closed what was let go. A spawn needs it.
#[must_use]
pub struct HasClosed {
    own: (),
}

impl ClosesReturned {
    /// Makes the duty of a new executor.
    pub fn new() -> ClosesReturned {
        ClosesReturned { own: () }
    }

    /// Closes what was let go so far.
    #[inline(always)]
    pub fn close<T: Output, W: OutsideWaker, R: Runtime>(
        &self,
        rt: R,
        realm: &'static ExRealm<T, W, R>,
        unlocked: &Unlocked,
    ) -> HasClosed {
        let _ = unlocked;
        close_returned(rt, realm);
        HasClosed { own: () }
    }

    /// Closes what was let go, as the executor ends.
    pub fn end<T: Output, W: OutsideWaker, R: Runtime>(
        self,
        rt: R,
        realm: &'static ExRealm<T, W, R>,
        unlocked: &Unlocked,
    ) {
        self.close(rt, realm, unlocked).spend();
        let ClosesReturned { own: () } = self;
    }

    /// Forgets the duty of a static executor, which never ends.
    pub fn forget(self) {
        let ClosesReturned { own: () } = self;
    }
}

impl HasClosed {
    /// Uses the proof up: a future is accepted or refused.
    pub fn spend(self) {
        let HasClosed { own: () } = self;
    }
}
