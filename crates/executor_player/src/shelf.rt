//! The wakers of futures that a script keeps.
use crate::outside::{ScriptRealm, ScriptWaker};
use async_task::{Awaiter, Returning, Runtime, StoredWaker, Wake};
use player_parts::{Keep, KeptOf, SharedShelf, Shelf};
use script::Name;

/// A waker of a future, at rest.
#[derive(Drop)]
pub struct Kept {
    stored: Returning<StoredWaker>,
}

impl<R: Runtime> KeptOf<ScriptWaker<R>> for Kept {
    fn kept_of(waker: &ScriptWaker<R>) -> Option<Kept> {
        match waker.clone() {
            Some(Awaiter::Task(copy)) => Some(Kept::of(copy.store())),
            _ => None,
        }
    }

    /// It goes once the command is over, as its realm lets it go.
    fn keep_none(shelf: &Shelf<Kept>, name: Name) {
        shelf.keep_none(name);
    }
}

impl Kept {
    fn of(stored: StoredWaker) -> Kept {
        Kept {
            stored: Returning::new(stored),
        }
    }
}

/// Who keeps the wakers of one realm.
pub trait KeepIn<R: Runtime>: Keep {
    fn of(rt: R, realm: &'static ScriptRealm<R>, shelf: SharedShelf<Kept>) -> Self;
}

/// Who keeps the wakers of one realm.
#[derive(Drop)]
pub struct Keeper<R: Runtime> {
    rt: R,
    realm: &'static ScriptRealm<R>,
    shelf: SharedShelf<Kept>,
}

impl<R: Runtime> KeepIn<R> for Keeper<R> {
    fn of(rt: R, realm: &'static ScriptRealm<R>, shelf: SharedShelf<Kept>) -> Self {
        Keeper { rt, realm, shelf }
    }
}

impl<R: Runtime> Keep for Keeper<R> {
    fn wake(&self, name: Name) -> bool {
        match self.shelf.take_kept(name) {
            Some(kept) => self.wake_kept(name, kept),
            None => false,
        }
    }

    fn unkeep(&self, name: Name) -> bool {
        match self.shelf.take_kept(name) {
            Some(kept) => {
                self.let_go(kept);
                true
            }
            None => false,
        }
    }

    fn let_replaced_go(&self) {
        for kept in self.shelf.take_replaced() {
            self.let_go(kept);
        }
    }
}

impl<R: Runtime> Keeper<R> {
    fn wake_kept(&self, name: Name, kept: Kept) -> bool {
        match kept.stored.redeem(self.rt, self.realm) {
            Some(waker) => {
                waker.wake_by_ref();
                self.shelf.keep(name, Kept::of(waker.store()));
                true
            }
            None => false,
        }
    }

    fn let_go(&self, kept: Kept) {
        if let Some(waker) = kept.stored.redeem(self.rt, self.realm) {
            drop(waker);
        }
    }
}
