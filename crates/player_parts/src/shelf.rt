//! The wakers of futures that a script keeps.
use crate::stage::Shared;
use script::Name;
use std::alloc::{AllocError, Global};
use std::cell::RefCell;
use std::collections::BTreeMap;
use std::rc::Rc;

/// A shelf that futures and a keeper share, in one thread.
pub type SharedShelf<S> = Rc<Shelf<S>, Global>;

/// The wakers that are kept, each as an `S`, and the stage of their script.
#[derive(Drop)]
pub struct Shelf<S: Drop> {
    /// What the script shows.
    pub stage: Shared,
    alloc: Global,
    /// Of each future, by its name, the waker that is kept.
    kept: RefCell<BTreeMap<Name, S>>,
    /// Wakers in whose place others came.
    replaced: RefCell<Vec<S>>,
}

impl<S: Drop> Shelf<S> {
    /// A shelf with no wakers.
    pub fn new(alloc: Global, stage: &Shared) -> Result<SharedShelf<S>, AllocError> {
        let shelf = Shelf {
            stage: Rc::clone(stage)?,
            alloc,
            kept: RefCell::new(BTreeMap::new(alloc)),
            replaced: RefCell::new(Vec::new(alloc)),
        };
        match Rc::new(alloc, shelf) {
            Ok(shelf) => Ok(shelf),
            Err(_) => Err(AllocError),
        }
    }

    /// Keeps a waker of the future of this name, in place of the one that was kept before.
    pub fn keep(&self, name: Name, waker: S) {
        let is_kept = match self.put_kept(name, waker) {
            Ok(Some(old)) => self.put_replaced(old),
            Ok(None) => true,
            Err(_) => false,
        };
        if !is_kept {
            self.stage.lack_memory();
        }
    }

    /// Keeps none of the future of this name. One that was kept goes to those in whose place others came.
    pub fn keep_none(&self, name: Name) {
        if let Some(old) = self.take_kept(name) {
            if !self.put_replaced(old) {
                self.stage.lack_memory();
            }
        }
    }

    fn put_kept(&self, name: Name, waker: S) -> Result<Option<S>, AllocError> {
        match self.kept.try_borrow_mut() {
            Ok(mut kept) => match kept.insert(name, waker) {
                Ok(old) => Ok(old),
                Err(_) => Err(AllocError),
            },
            Err(_) => Err(AllocError),
        }
    }

    fn put_replaced(&self, waker: S) -> bool {
        match self.replaced.try_borrow_mut() {
            Ok(mut replaced) => replaced.push(waker).is_ok(),
            Err(_) => false,
        }
    }

    /// Takes out the waker that is kept of the future of this name.
    pub fn take_kept(&self, name: Name) -> Option<S> {
        match self.kept.try_borrow_mut() {
            Ok(mut kept) => kept.remove(&name),
            Err(_) => None,
        }
    }

    /// Takes out the wakers in whose place others came.
    pub fn take_replaced(&self) -> Vec<S> {
        match self.replaced.try_replace(Vec::new(self.alloc)) {
            Ok(replaced) => replaced,
            Err(none) => none,
        }
    }
}

/// Who calls the kept wakers, and lets them go. A player knows no more of it than this.
pub trait Keep: Drop {
    /// Wakes the future of this name by its kept waker, which stays kept. Says whether there is one.
    fn wake(&self, name: Name) -> bool;

    /// Lets the kept waker of the future of this name go. Says whether there was one.
    fn unkeep(&self, name: Name) -> bool;

    /// Lets the wakers go in whose place others came.
    fn let_replaced_go(&self);
}
