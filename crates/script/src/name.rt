//! The names of futures.

ghost use Rattle.std.specs.Prelude.{◌≡◌};
ghost use Rattle.std.specs.Option.{SomeIff};

use std::cmp::Ordering;
use std::marker::Model;

/// The name of a future: 1 to 8 letters, each from a to z. Contracts see it as its letters.
#[derive(Clone, Copy)]
pub struct Name {
    /// The letters from the front, and zeros after them.
    letters: [u8; 8],
    len: usize,
}

impl Model for Name {
    ghost use Rattle.std.specs.Prelude.{List, ℕ, ◌++◌, ◌-◌, length, replicate, take};

    ghost Value = { List ℕ };

    ghost use Rattle.script.specs.Padded.{IsPadded};

    ghost view = { λ inside. take inside.len inside.letters };

    ghost invariant = { IsPadded };

    ghost inverse = { λ name.
        record { letters = name ++ replicate (8 - length name) 0; len = length name } };
}

impl Name {
    ghost use Rattle.script.specs.Name.{IsName};

    /// The name of these letters, where they are a name.
    pub fn new(word: &[u8]) -> Option<Name>
        ensures { SomeIff result (IsName word.now) word.now }
    {
        if word.is_empty() || word.len() > 8 || !word.iter().all(u8::is_ascii_lowercase) {
            return None;
        }
        let mut letters = [0; 8];
        letters[..word.len()].copy_from_slice(word);
        Some(Name {
            letters,
            len: word.len(),
        })
    }

    /// The letters of the name.
    pub fn letters(&self) -> &[u8]
        ensures name { IsName self.now }
        ensures letters { result.now ≡ self.now }
    {
        &self.letters[..self.len]
    }
}

/// Names are equal where their letters are.
impl PartialEq for Name {
    ghost use Rattle.std.proofs.Common.{rules};
    ghost use Rattle.std.specs.Cmp.Rules.{comparing};
    ghost use Rattle.std.specs.Str.{bytes_eq};

    ghost eq = { bytes_eq };

    ghost laws = { Prim.search (comparing, rules) };

    fn eq(&self, other: &Name) -> bool {
        self.letters() == other.letters()
    }
}

impl Eq for Name {
    ghost use Rattle.std.proofs.Common.{rules};
    ghost use Rattle.std.specs.Cmp.Rules.{comparing};

    ghost laws = { Prim.search (comparing, rules) };
}

/// Names stand in the order of the alphabet, as texts do.
impl Ord for Name {
    ghost use Rattle.std.proofs.Common.{rules};
    ghost use Rattle.std.specs.Cmp.Rules.{comparing};
    ghost use Rattle.std.specs.Cmp.Lexicographic.{slice_cmp};
    ghost use Rattle.std.specs.Ordering.{nat_cmp};

    ghost cmp = { slice_cmp nat_cmp };

    ghost total = { Prim.search (comparing, rules) };

    ghost matches_partial_cmp = { Prim.search (comparing, rules) };

    ghost matches_eq = { Prim.search (comparing, rules) };

    fn cmp(&self, other: &Name) -> Ordering {
        self.letters().cmp(other.letters())
    }
}

impl PartialOrd for Name {
    ghost use Rattle.std.proofs.Common.{rules};
    ghost use Rattle.std.specs.Cmp.{partial_order_from_own_ties};
    ghost use Rattle.std.specs.Cmp.Rules.{comparing};
    ghost use Rattle.std.specs.Cmp.Lexicographic.{slice_cmp};
    ghost use Rattle.std.specs.Ordering.{nat_cmp, as_partial_cmp};

    ghost partial_cmp = { as_partial_cmp (slice_cmp nat_cmp) };

    ghost laws = { partial_order_from_own_ties
        (Prim.search (comparing, rules)) (Prim.search (comparing, rules)) };

    fn partial_cmp(&self, other: &Name) -> Option<Ordering> {
        Some(self.cmp(other))
    }
}
