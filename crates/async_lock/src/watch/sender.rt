ghost use Rattle.std.specs.Arc.{arc_value};
ghost use Rattle.std.specs.Prelude.{◌≡◌, IfErr, IfOk, None};

use crate::errors::NoMemoryFor;
use crate::watch::receiver::Receiver;
use crate::watch::shared::Shared;
use async_task::{NoMemory, Wake};
use std::alloc::Global;
use std::sync::atomic::Ordering::SeqCst;
use std::sync::{Arc, Wait};

/// Sends values, of which followers see the newest. The drop of the last sender wakes them: none comes any more.
pub struct Sender<T: Drop, K: Wake + Drop, R: Wait + Copy + Drop> {
    shared: Arc<Shared<T, K>>,
    rt: R,
    alloc: Global,
}

impl<T: Drop, K: Wake + Drop, R: Wait + Copy + Drop> Sender<T, K, R> {
    pub(crate) fn new(rt: R, alloc: Global, shared: Arc<Shared<T, K>>) -> Self
        ensures { result.shared ≡ shared }
    {
        Sender { shared, rt, alloc }
    }

    /// Makes one more sender; refused where there are 2^63 handles. It takes no memory.
    pub fn clone(&self) -> Result<Self, NoMemory>
        ensures same { IfOk result (λ sender. arc_value sender.shared ≡ arc_value self.now.shared) }
    {
        match Arc::try_clone(&self.shared) {
            Ok(shared) => {
                shared.senders.fetch_add(1, SeqCst);
                Ok(Sender::new(self.rt, self.alloc, shared))
            }
            Err(_) => Err(NoMemory),
        }
    }

    /// Puts the value in the place of the newest, and wakes all waiters; also where there is no receiver. It takes memory for the
    /// value; where there is none the value comes back, and nothing changes. The value before is dropped once nobody looks at it
    /// any more, with no lock held.
    pub fn send(&self, value: T) -> Result<(), NoMemoryFor<T>>
        ensures { IfErr result (λ error. error.0 ≡ value) }
    {
        match Arc::new(self.alloc, value) {
            Ok(value) => {
                self.shared.put(&self.rt, value);
                Ok(())
            }
            Err(failed) => Err(NoMemoryFor(failed.value)),
        }
    }

    /// Makes one more receiver, which has seen the newest value; refused where there are 2^63 handles. It takes no memory.
    pub fn subscribe(&self) -> Result<Receiver<T, K, R>, NoMemory>
        ensures same { IfOk result (λ receiver. arc_value receiver.shared ≡ arc_value self.now.shared) }
        ensures waits_not { IfOk result (λ receiver. receiver.seat ≡ None) }
    {
        match Arc::try_clone(&self.shared) {
            Ok(shared) => {
                let seen = shared.version(&self.rt);
                Ok(Receiver::new(self.rt, shared, seen))
            }
            Err(_) => Err(NoMemory),
        }
    }
}

impl<T: Drop, K: Wake + Drop, R: Wait + Copy + Drop> Drop for Sender<T, K, R> {
    /// The last sender closes it.
    fn drop(self) {
        let Sender {
            shared,
            rt,
            alloc: _alloc,
        } = self;
        if shared.senders.fetch_sub(1, SeqCst) == 1 {
            shared.close(&rt);
        }
    }
}
