//! The futures of a script by name.

ghost use Rattle.std.specs.Prelude.{◌≡◌, ◌<◌, [], ◌∷◌, ◌++◌, None, Some, length, IfSome, OnErr, OnOk, slice_get};
ghost use Rattle.script.specs.Names.{number_of};

use crate::Name;
use std::alloc::{AllocError, Global};
use std::collections::BTreeMap;
use std::marker::Model;

/// The names of the accepted futures in the order of acceptance, no name twice. A future's number
/// is the place of its name, counted from 0. Contracts see the names as their letters, in order.
#[derive(Drop)]
pub struct Names {
    order: Vec<Name>,
    numbers: BTreeMap<Name, usize>,
}

impl Model for Names {
    ghost use Rattle.std.specs.Prelude.{List, ℕ};

    ghost Value = { List (List ℕ) };

    ghost use Rattle.script.specs.Indexed.{IsIndexed};

    ghost view = { λ inside. inside.order.items };

    ghost invariant = { IsIndexed };
}

impl Names {
    /// No names. Takes no memory.
    pub fn new(alloc: Global) -> Names
        ensures { result ≡ [] }
    {
        Names {
            order: Vec::new(alloc),
            numbers: BTreeMap::new(alloc),
        }
    }

    /// The number of the future of this name, in time logarithmic in the number of names.
    pub fn number_of(&self, name: Name) -> Option<usize>
        ensures { result ≡ number_of self.now name }
    {
        self.numbers.get(&name).copied()
    }

    /// The name of the future of this number.
    pub fn get(&self, number: usize) -> Option<Name>
        ensures place { result ≡ slice_get self.now number }
        ensures number { IfSome result (λ name. number_of self.now name ≡ Some number) }
    {
        self.order.get(number).copied()
    }

    /// Puts a name that isn't there behind the others, in time logarithmic in their number.
    /// Where memory is refused, the names stay as they were.
    pub fn push(&mut self, name: Name) -> Result<(), AllocError>
        requires { number_of self.old name ≡ None }
        ensures ok { OnOk result (self.new ≡ self.old ++ name ∷ []) }
        ensures err { OnErr result (self.new ≡ self.old) }
    {
        self.order.reserve(1)?;
        self.numbers.insert(name, self.order.len())?;
        self.order.push(name).unwrap();
        Ok(())
    }
}
