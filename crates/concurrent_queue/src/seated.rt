//! The running calls of slot and ring, each lent the queue, which has the table, and a seat at it.
//!
//! A seat's view keeps the words that the steps of its call found, and each call answers what `steps` gives for them. It also
//! keeps whether its calls found the queue closed or closed it. That stays so, and nothing is accepted through such a seat.
//!
//! A `Single` or a `Bounded` has the table, its field `board`, and gives seats, as in `queue` of `examples`:
//!
//! ```
//! let slot = Single::<u64>::new(rt.alloc())?;
//! let mut seat = slot.seat();
//! assert!(rt; seated::single::push(&rt, &slot, &mut seat, 5).is_ok());
//! let ring = Bounded::<u64>::new(rt.alloc(), 4)?;
//! let mut seat = ring.seat();
//! assert!(rt; seated::bounded::close(&ring, &mut seat));
//! ```

/// The calls on a ring.
pub mod bounded {
    pub use crate::bounded::calls::{close, is_closed, is_empty, is_full, len};
    pub use crate::bounded::popping::pop;
    pub use crate::bounded::pushing::{force_push, push};
}

/// The calls on a single slot.
pub mod single {
    pub use crate::single::calls::{close, is_closed, is_empty, is_full, len};
    pub use crate::single::popping::pop;
    pub use crate::single::pushing::{force_push, push};
}
