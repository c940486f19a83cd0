//! Who calls the kept wakers of a script's futures, and lets them go.
use crate::one_owner::waker::TaskWaker;
use player_parts::{Keep, SharedShelf};
use script::Name;
use std::sync::Wait;

/// Who calls the wakers of a shelf.
#[derive(Drop)]
pub struct Keeper<R: Wait + Copy + Drop> {
    pub shelf: SharedShelf<TaskWaker<R>>,
}

impl<R: Wait + Copy + Drop> Keep for Keeper<R> {
    fn wake(&self, name: Name) -> bool {
        match self.shelf.take_kept(name) {
            Some(kept) => {
                kept.call();
                self.shelf.keep(name, kept);
                true
            }
            None => false,
        }
    }

    fn unkeep(&self, name: Name) -> bool {
        match self.shelf.take_kept(name) {
            Some(kept) => {
                drop(kept);
                true
            }
            None => false,
        }
    }

    fn let_replaced_go(&self) {
        drop(self.shelf.take_replaced());
    }
}
