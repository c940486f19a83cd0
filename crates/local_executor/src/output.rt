//! Where a task puts its output, and its handle takes it.
ghost use Rattle.std.specs.Prelude.{◌≡◌, IfSome};
ghost use Rattle.std.specs.Rc.{rc_value};

use crate::foreign::{Foreign, came_out};
use std::alloc::Global;
use std::cell::Cell;
use std::rc::Rc;
use std::snapshot::Snapshot;

/// The place of a task's output, which the task and its handle share.
#[derive(Drop)]
pub struct Output<T> {
    place: Rc<Place<T>, Global>,
}

/// The place. Contracts don't see what it holds, so it has a name, by which they tell one from another.
#[derive(Drop)]
struct Place<T> {
    name: Snapshot<u64>,
    output: Cell<Option<T>>,
}

impl<T> Place<T> {
    /// Makes a place of its own, which is empty. The clause says nothing of its name, so no two can be shown to be the same.
    fn new() -> Self
        ensures { result ≡ result }
    {
        Place {
            name: Snapshot::of(&0),
            output: Cell::new(None),
        }
    }
}

impl<T> Output<T> {
    /// Makes an empty place, for the task and for its handle. None for want of memory.
    pub fn pair(alloc: Global) -> Option<(Output<T>, Output<T>)>
    where
        T: Drop,
        ensures { IfSome result (λ both. rc_value both.0.place ≡ rc_value both.1.place) }
    {
        let Ok(place) = Rc::new(alloc, Place::new()) else {
            return None;
        };
        let other: Result<_, _> = place.clone();
        match other {
            Ok(other) => Some((Output { place }, Output { place: other })),
            Err(_) => None,
        }
    }

    /// Puts an output there. The output that was there comes out.
    pub fn put(&self, output: Foreign<T>) -> Option<Foreign<T>> {
        came_out(self.place.output.replace(Some(output.into_stored())))
    }

    /// Takes the output out.
    pub fn take(&self) -> Option<Foreign<T>> {
        came_out(self.place.output.replace(None))
    }
}
