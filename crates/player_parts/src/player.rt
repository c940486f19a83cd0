//! The player of a script: what it has beside its executor, and its commands on handles and wakers.
use crate::answer::Answer;
use crate::handle::{Held, Hold};
use crate::handles::SharedHandles;
use crate::outside::Bell;
use crate::shelf::Keep;
use crate::stage::{Shared, Stage};
use script::{Item, Name, Names, Plain};
use std::alloc::Global;
use std::collections::BTreeMap;

/// Things by name.
pub type Named<X> = BTreeMap<Name, X>;

/// What a script has beside its executor and its ticks and runs.
#[derive(Drop)]
pub struct Player<H: Drop, K: Drop> {
    /// What its own lists take memory from.
    pub alloc: Global,
    /// What the script shows.
    pub stage: Shared,
    /// The wakers that a script keeps.
    pub keeper: K,
    /// The names of the accepted futures, the ticks and the runs.
    names: Names,
    /// Those that no future and no run holds, which futures drop too.
    pub handles: SharedHandles<H>,
}

impl<H: Hold, K: Keep> Player<H, K> {
    /// A player of whom no script has asked for anything: it knows no name. Takes no memory.
    pub fn new(alloc: Global, stage: Shared, keeper: K, handles: SharedHandles<H>) -> Player<H, K> {
        Player {
            alloc,
            stage,
            keeper,
            names: Names::new(alloc),
            handles,
        }
    }

    /// Whether a future, tick or run has this name, or had it.
    pub fn knows(&self, name: Name) -> bool {
        self.names.number_of(name).is_some()
    }

    /// A future, tick or run has this name from now on.
    pub fn learn(&mut self, name: Name) {
        if self.names.number_of(name).is_none() && self.names.push(name).is_err() {
            self.stage.lack_memory();
        }
    }

    /// Makes the call of a command that needs no executor. All others aren't possible.
    pub fn call_on_handle(&mut self, plain: &Plain) -> Answer {
        match plain {
            Plain::Wake(name) => Answer::done_if(self.keeper.wake(*name)),
            Plain::Unkeep(name) => Answer::done_if(self.keeper.unkeep(*name)),
            Plain::Poll(name) => self.poll(*name),
            Plain::Cancel(name) => self.cancel(*name),
            Plain::Detach(name) => self.detach(*name),
            Plain::Drop(name) => self.drop_handle(*name),
            _ => Answer::NotPossible,
        }
    }

    /// The handles that these items name are there.
    pub fn has_handles(&self, items: &[Item]) -> bool {
        for item in items {
            if let Item::Twice(name) = item {
                if !self.has_handle(*name) {
                    return false;
                }
            }
        }
        true
    }

    /// The handle of this name lies here.
    pub fn has_handle(&self, name: Name) -> bool {
        self.handles.has(name)
    }

    /// Takes the handles that these items name.
    pub fn take_handles(&mut self, items: &[Item]) -> Vec<Held<H>> {
        let mut held = Vec::new(self.alloc);
        for item in items {
            if let Item::Twice(name) = item {
                self.take_handle_into(*name, &mut held);
            }
        }
        held
    }

    fn take_handle_into(&mut self, name: Name, held: &mut Vec<Held<H>>) {
        if let Some(handle) = self.handles.take(name) {
            if held.push(Held { name, handle }).is_err() {
                self.stage.lack_memory();
            }
        }
    }

    /// Takes the handle of this name, with its name; `None` where it doesn't lie here.
    pub fn take_held(&mut self, name: Name) -> Option<Held<H>> {
        match self.handles.take(name) {
            Some(handle) => Some(Held { name, handle }),
            None => None,
        }
    }

    /// Puts a handle back under its name.
    pub fn put_held(&mut self, held: Held<H>) {
        let Held { name, handle } = held;
        self.put_handle(name, handle);
    }

    /// Puts these handles back, each under its name.
    pub fn put_all(&mut self, held: Vec<Held<H>>) {
        for held in held {
            self.put_held(held);
        }
    }

    /// The handle of the future of this name, which was accepted.
    pub fn put_handle(&mut self, name: Name, handle: H) {
        self.handles.put(name, handle);
    }

    fn poll(&mut self, name: Name) -> Answer {
        match self.handles.take(name) {
            Some(handle) => self.poll_handle(name, handle),
            None => Answer::NotPossible,
        }
    }

    fn cancel(&mut self, name: Name) -> Answer {
        match self.handles.take(name) {
            Some(handle) => self.poll_handle(name, handle.cancel()),
            None => Answer::NotPossible,
        }
    }

    /// Polls a handle by the outside waker of its name, and puts it back.
    fn poll_handle(&mut self, name: Name, handle: H) -> Answer {
        let mut handle = handle;
        let answer = handle.poll_by(Bell::of(name, &self.stage));
        self.put_handle(name, handle);
        answer
    }

    fn detach(&mut self, name: Name) -> Answer {
        match self.handles.take(name) {
            Some(handle) => {
                handle.detach();
                Answer::Done
            }
            None => Answer::NotPossible,
        }
    }

    fn drop_handle(&mut self, name: Name) -> Answer {
        match self.handles.take(name) {
            Some(handle) => {
                drop(handle);
                Answer::Done
            }
            None => Answer::NotPossible,
        }
    }
}

/// Puts a thing under a name.
pub fn put<X: Drop>(things: &mut Named<X>, name: Name, thing: X, stage: &Stage) {
    match things.insert(name, thing) {
        Ok(old) => drop(old),
        Err(failed) => {
            drop(failed);
            stage.lack_memory();
        }
    }
}
