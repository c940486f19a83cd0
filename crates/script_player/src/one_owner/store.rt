//! The futures of a script that aren't dropped.
use crate::one_owner::handle::Handle;
use crate::one_owner::waker::TaskWaker;
use player_parts::{Scripted, Shared};
use script::Name;
use std::alloc::Global;
use std::cell::RefCell;
use std::collections::BTreeMap;
use std::sync::Wait;

/// The future of a script's line.
pub type ScriptFuture<R> = Scripted<Handle<R>, TaskWaker<R>>;

/// Each future by its name, but while it is polled.
#[derive(Drop)]
pub struct Store<R: Wait + Copy + Drop> {
    stage: Shared,
    futures: RefCell<BTreeMap<Name, ScriptFuture<R>>>,
}

impl<R: Wait + Copy + Drop> Store<R> {
    /// None yet.
    pub fn new(alloc: Global, stage: Shared) -> Store<R> {
        Store {
            stage,
            futures: RefCell::new(BTreeMap::new(alloc)),
        }
    }

    /// Takes that of this name out.
    pub fn take(&self, name: Name) -> Option<ScriptFuture<R>> {
        match self.futures.try_borrow_mut() {
            Ok(mut futures) => futures.remove(&name),
            Err(_) => None,
        }
    }

    /// Puts one in, whose name none there has. Without memory for it, it is dropped.
    pub fn put(&self, name: Name, future: ScriptFuture<R>) {
        match self.insert(name, future) {
            None => {}
            Some(over) => {
                drop(over);
                self.stage.lack_memory();
            }
        }
    }

    fn insert(&self, name: Name, future: ScriptFuture<R>) -> Option<ScriptFuture<R>> {
        match self.futures.try_borrow_mut() {
            Ok(mut futures) => match futures.insert(name, future) {
                Ok(old) => old,
                Err(failed) => {
                    drop(failed);
                    self.stage.lack_memory();
                    None
                }
            },
            Err(_) => Some(future),
        }
    }
}
