//! The handles that a script has.
use crate::player::{Named, put};
use crate::stage::Shared;
use script::Name;
use std::alloc::{AllocError, Global};
use std::cell::RefCell;
use std::collections::BTreeMap;
use std::rc::Rc;

/// Handles that a player shares with its futures, in one thread.
pub type SharedHandles<H> = Rc<Handles<H>, Global>;

/// The handle of each future, by its name, where no future and no run holds it, no command uses it, and it isn't let go.
#[derive(Drop)]
pub struct Handles<H: Drop> {
    stage: Shared,
    handles: RefCell<Named<H>>,
}

impl<H: Drop> Handles<H> {
    /// None yet.
    pub fn new(alloc: Global, stage: &Shared) -> Result<SharedHandles<H>, AllocError> {
        let handles = Handles {
            stage: Rc::clone(stage)?,
            handles: RefCell::new(BTreeMap::new(alloc)),
        };
        match Rc::new(alloc, handles) {
            Ok(handles) => Ok(handles),
            Err(_) => Err(AllocError),
        }
    }

    /// Whether that of this name is there.
    pub fn has(&self, name: Name) -> bool {
        match self.handles.try_borrow() {
            Ok(handles) => handles.contains_key(&name),
            Err(_) => false,
        }
    }

    /// Takes that of this name out.
    pub fn take(&self, name: Name) -> Option<H> {
        match self.handles.try_borrow_mut() {
            Ok(mut handles) => handles.remove(&name),
            Err(_) => None,
        }
    }

    /// Puts one in, which isn't there.
    pub fn put(&self, name: Name, handle: H) {
        match self.handles.try_borrow_mut() {
            Ok(mut handles) => put(&mut handles, name, handle, &self.stage),
            Err(_) => {
                drop(handle);
                self.stage.lack_memory();
            }
        }
    }
}
