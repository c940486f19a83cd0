//! What a future does at its polls.

ghost use Rattle.std.specs.Prelude.{◌≡◌, ◌-◌, ◌≤◌, List, IfNone, IfOk, IfSome, Some, length, min, slice_get};

use crate::item::Item;
use std::alloc::{AllocError, Global};
use std::marker::Model;
use text_lines::Words;

/// What a future does at its polls: 1 to 8 items, one for each poll, the last for all later ones.
/// Contracts see them as a list.
#[derive(Drop)]
pub struct Items {
    items: Vec<Item>,
}

impl Model for Items {
    ghost use Rattle.std.specs.Prelude.{List, ◌≤◌, length};
    ghost use Rattle.script.specs.declared.item.Item.{Item};

    ghost Value = { List Item };

    ghost view = { λ inside. inside.items.items };

    ghost invariant = { λ inside.
        (1 ≤ length inside.items.items) × (length inside.items.items ≤ 8) };
}

impl Items {
    ghost use Rattle.script.specs.Item.{AreItems};
    ghost use Rattle.script.specs.declared.item.Item.{Item};

    /// The items of these words, where there are 1 to 8 and each is one.
    pub fn from_words(alloc: Global, words: Words<'_>) -> Result<Option<Items>, AllocError>
        ensures found { IfOk result (λ found. IfSome found (λ items. AreItems items words.entry)) }
        ensures none { IfOk result (λ found.
            IfNone found ((items : List Item) → ¬ (AreItems items words.entry))) }
    {
        let mut items = Vec::new(alloc);
        for word in words {
            let Some(item) = Item::from_word(word) else {
                return Ok(None);
            };
            if items.len() == 8 {
                return Ok(None);
            }
            items.push(item)?;
        }
        if items.is_empty() {
            return Ok(None);
        }
        Ok(Some(Items { items }))
    }

    /// The items in the order of the polls.
    pub fn as_slice(&self) -> &[Item]
        ensures items { result.now ≡ self.now }
        ensures some { 1 ≤ length self.now }
        ensures few { length self.now ≤ 8 }
    {
        self.items.as_slice()
    }
}

/// Two lists of items are equal where their items are.
impl PartialEq for Items {
    ghost use Rattle.std.specs.Cmp.Lexicographic.{pointwise, lists_per};
    ghost use Rattle.script.specs.contracts.item.ItemPartialEq.TheImpl as item;
    ghost use Rattle.script.specs.contracts.item.ItemPartialEq.TheImpl.Laws.{laws-law};

    ghost eq = { pointwise item.ghosts.eq };

    ghost laws = { lists_per laws-law };

    fn eq(&self, other: &Items) -> bool {
        self.as_slice() == other.as_slice()
    }
}

impl Eq for Items {
    ghost use Rattle.std.specs.Cmp.Lexicographic.{lists_equiv};
    ghost use Rattle.script.specs.contracts.item.ItemEq.TheImpl.Laws.{laws-law};

    ghost laws = { lists_equiv laws-law };
}
