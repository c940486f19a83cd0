//! The handles of a script's futures, and who holds them.

ghost use Rattle.std.specs.Prelude.{◌≡◌};
ghost use Rattle.simulator.specs.Handles as handles;

use crate::play::party::Party;
use crate::play::player::Player;
use script::{Item, Name, Plain};

impl<'a> Player<'a> {
    /// The future of this name, whose handle neither another future nor a run nor a command holds.
    pub fn handle_of(&self, name: Name) -> Option<u64>
        ensures { result ≡ handles.handle_of self.now name }
    {
        if self.is_used(name) {
            None
        } else {
            self.unheld(self.number_of(name))
        }
    }

    /// The future, whose handle no other future and no run holds.
    fn unheld(&self, f: Option<u64>) -> Option<u64>
        ensures { result ≡ handles.unheld self.now f }
    {
        let f = f?;
        if self.future(f).held { None } else { Some(f) }
    }

    /// A party has begun a command on the handle of the future of this name, and not ended it.
    fn is_used(&self, name: Name) -> bool
        ensures { result ≡ handles.is_used self.now name }
    {
        self.parties.iter().any(|party| self.is_using(name, *party))
    }

    fn is_using(&self, name: Name, party: Party) -> bool
        ensures { result ≡ handles.is_using self.now name party }
    {
        match party.doing {
            Some(doing) => match self.plain_at(doing.command) {
                Some(
                    Plain::Poll(other)
                    | Plain::Cancel(other)
                    | Plain::Detach(other)
                    | Plain::Drop(other),
                ) => *other == name,
                _ => false,
            },
            None => false,
        }
    }

    fn is_there(&self, g: Option<u64>) -> bool
        ensures { result ≡ handles.is_there self.now g }
    {
        match g {
            Some(g) => self.machine.has_handle(g),
            None => false,
        }
    }

    /// A handle that this item names is there, and nobody holds or uses it.
    pub fn is_available(&self, item: Item) -> bool
        ensures { result ≡ handles.is_available self.now item }
    {
        match item {
            Item::Twice(name) => self.is_there(self.handle_of(name)),
            _ => true,
        }
    }

    /// The future, where its handle is there and no call uses it.
    pub fn free_handle(&self, g: Option<u64>) -> Option<u64>
        ensures { result ≡ handles.free_handle self.now g }
    {
        if self.is_there(g) { g } else { None }
    }
}
