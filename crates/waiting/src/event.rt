ghost use Rattle.std.specs.Arc.{arc_value};
ghost use Rattle.std.specs.Prelude.{◌≡◌, IfOk};

use crate::listed::Listed;
use crate::listener::Listener;
use crate::waiters::Call;
use async_task::{NoMemory, Wake};
use std::alloc::Global;
use std::sync::{Arc, Wait};

/// An event that futures wait for, as many as memory holds. After `Event` of `event-listener`. A notification goes to the listener
/// that came first, or to all. It stays that listener's until it is used or passed on; with no listener it is lost. So whoever
/// waits for a fact listens first, then looks whether the fact holds, and then awaits the listener. The type of its wakers is `K`.
///
/// Wakers are called and dropped with no lock held, and `notify` takes no memory. Where nobody waits it takes no lock.
///
/// ```
/// let event = Event::<Nobody, _>::new(rt, rt.alloc())?;
/// let (first, mut second) = (event.listen()?, event.listen()?);
/// assert!(rt; event.notify());
/// assert!(rt; matches!(second.poll(&Nobody), Poll::Pending));
/// drop(first);
/// assert!(rt; matches!(second.poll(&Nobody), Poll::Ready(())));
/// ```
#[derive(Drop)]
pub struct Event<K: Wake + Drop, R: Wait + Copy + Drop> {
    waiters: Arc<Listed<K>>,
    rt: R,
}

impl<K: Wake + Drop, R: Wait + Copy + Drop> Event<K, R> {
    /// Makes an event for which nobody waits.
    pub fn new(rt: R, alloc: Global) -> Result<Self, NoMemory>
        ensures { IfOk result (λ event. event.rt ≡ rt) }
    {
        match Arc::new(alloc, Listed::new(alloc)) {
            Ok(waiters) => Ok(Event { waiters, rt }),
            Err(_) => Err(NoMemory),
        }
    }

    /// Makes another handle of the same event; refused where it has too many already. Takes no memory.
    pub fn clone(&self) -> Result<Self, NoMemory>
        ensures same { IfOk result (λ event. arc_value event.waiters ≡ arc_value self.now.waiters) }
    {
        match Arc::try_clone(&self.waiters) {
            Ok(waiters) => Ok(Event {
                waiters,
                rt: self.rt,
            }),
            Err(_) => Err(NoMemory),
        }
    }

    /// Listens from now on: a future that is ready once it was notified. It takes memory for its place in the list where others
    /// wait already.
    pub fn listen(&self) -> Result<Listener<K, R>, NoMemory>
        ensures here { IfOk result (λ listener. arc_value listener.event.waiters ≡ arc_value self.now.waiters) }
    {
        let event = match self.clone() {
            Ok(event) => event,
            Err(error) => return Err(error),
        };
        match self.waiters.listen(&self.rt) {
            Ok(listening) => Ok(Listener::new(self.rt, event, listening)),
            Err(_) => Err(NoMemory),
        }
    }

    /// Notifies the listener that has waited longest of those who weren't notified yet. Answers whether one waited.
    pub fn notify(&self) -> bool {
        reach(self.waiters.tell(&self.rt))
    }

    /// Notifies all who wait now. Answers how many.
    pub fn notify_all(&self) -> u64 {
        let mut number = 0u64;
        for _ in 0..self.waiters.len() {
            if !self.notify() {
                break;
            }
            number = number.saturating_add(1);
        }
        number
    }

    /// Notifies the next listener in the place of one that was notified and leaves.
    pub(crate) fn pass_on(&self, call: Call) {
        let _ = reach(self.waiters.pass_on(&self.rt, call));
    }

    pub(crate) fn waiters(&self) -> &Listed<K> {
        &*self.waiters
    }
}

/// Calls the waker of a listener that was notified. Answers whether there was one.
fn reach<K: Wake>(told: Option<Option<K>>) -> bool {
    match told {
        Some(Some(waker)) => {
            waker.wake();
            true
        }
        Some(None) => true,
        None => false,
    }
}
