//! The words of a line.

ghost use Rattle.std.specs.Prelude.{◌≡◌, ◌↔◌, [], IsTrue};
ghost use Rattle.text_lines.specs.Lines.{words_of};

use crate::cut::cut;
use std::marker::Model;

/// The words of a line that are left, from the front. Contracts see them as their texts.
#[derive(Drop)]
pub struct Words<'a> {
    /// What is left of the line, where a word is left: an empty word counts.
    rest: Option<&'a [u8]>,
}

impl<'a> Model for Words<'a> {
    ghost use Rattle.std.specs.Prelude.{List, [], ℕ};
    ghost use Rattle.std.specs.Option.{option_map_or};
    ghost use Rattle.text_lines.specs.Lines.{words_of};

    ghost Value = { List (List ℕ) };

    ghost view = { λ inside. option_map_or (λ line. words_of line.now) inside.rest [] };
}

impl<'a> Words<'a> {
    /// The words of this line.
    pub fn of(line: &'a [u8]) -> Words<'a>
        ensures { result ≡ words_of line.now }
    {
        Words { rest: Some(line) }
    }

    /// Whether no word is left.
    pub fn is_empty(&self) -> bool
        ensures { IsTrue result ↔ (self.now ≡ []) }
    {
        self.rest.is_none()
    }
}

impl<'a> Iterator for Words<'a> {
    ghost use Rattle.std.specs.Iterator.{YieldsFirstRef, item_count};

    type Item = &'a [u8];

    ghost next_gives = { YieldsFirstRef (λ words. words) };

    ghost remaining = { item_count (λ words. words) };

    fn next(&mut self) -> Option<&'a [u8]> {
        let (word, rest) = cut(self.rest?, b' ');
        self.rest = rest;
        Some(word)
    }
}
