//! What a future does at one poll.

ghost use Rattle.std.specs.Prelude.{ℕ, List, IfNone, IfSome};
ghost use Rattle.script.specs.Item.{IsItem};
ghost use Rattle.script.specs.declared.item.Item.TheVariants.{Ready, Twice, Stop};

use crate::name::Name;
use text_lines::read_number;

/// What a future does at one poll.
#[derive(Clone, Copy, PartialEq, Eq)]
pub enum Item {
    /// `pend`: it isn't ready.
    Pend,
    /// `self`: it wakes itself, and isn't ready.
    WakeSelf,
    /// `keep`: a copy of its waker is kept in place of the one that was kept before, and it isn't
    /// ready.
    Keep,
    /// `ready=<v>`: it is ready with this value, at most 1,000,000.
    Ready(u64),
    /// `twice:<g>`: it polls the handle of the future of this name, which it holds, and is ready with
    /// twice its output.
    Twice(Name),
    /// `stop:<g>`: it drops the handle of the future of this name, where the script has it and no call uses it, and isn't ready.
    Stop(Name),
    /// `nest`: it has a queued task taken up, as `try` does, where that is possible, and isn't ready.
    Nest,
}

impl Item {
    ghost use Rattle.script.specs.Item.{IsItem};
    ghost use Rattle.script.specs.declared.item.Item.{Item};

    /// The item of this word, where it is one.
    #[tactic(auto, using(crate::proofs::Unread::no_item))]
    pub fn from_word(word: &[u8]) -> Option<Item>
        ensures found { IfSome result (λ item. IsItem item word.now) }
        ensures none { IfNone result ((item : Item) → ¬ (IsItem item word.now)) }
    {
        if word == b"pend".as_slice() {
            Some(Item::Pend)
        } else if word == b"self".as_slice() {
            Some(Item::WakeSelf)
        } else if word == b"keep".as_slice() {
            Some(Item::Keep)
        } else if word == b"nest".as_slice() {
            Some(Item::Nest)
        } else {
            match of_handle(word) {
                Some(item) => Some(item),
                None => ready(word),
            }
        }
    }
}

/// The name in this word, where it is an item that polls a handle.
pub fn read_twice(word: &[u8]) -> Option<Name>
    ensures found { IfSome result (λ name. IsItem (Twice name) word.now) }
    ensures none { IfNone result ((name : List ℕ) → ¬ (IsItem (Twice name) word.now)) }
{
    word.strip_prefix(b"twice:").and_then(Name::new)
}

/// The name in this word, where it is an item that drops a handle.
fn read_stop(word: &[u8]) -> Option<Name>
    ensures found { IfSome result (λ name. IsItem (Stop name) word.now) }
    ensures none { IfNone result ((name : List ℕ) → ¬ (IsItem (Stop name) word.now)) }
{
    word.strip_prefix(b"stop:").and_then(Name::new)
}

/// The item of this word, where it is one that names another's handle.
fn of_handle(word: &[u8]) -> Option<Item>
    ensures found { IfSome result (λ item. IsItem item word.now) }
    ensures twice { IfNone result ((name : List ℕ) → ¬ (IsItem (Twice name) word.now)) }
    ensures stop { IfNone result ((name : List ℕ) → ¬ (IsItem (Stop name) word.now)) }
{
    match read_twice(word) {
        Some(name) => Some(Item::Twice(name)),
        None => read_stop(word).map(Item::Stop),
    }
}

/// The item of this word, where it is one that is ready.
fn ready(word: &[u8]) -> Option<Item>
    ensures found { IfSome result (λ item. IsItem item word.now) }
    ensures none { IfNone result ((value : ℕ) → ¬ (IsItem (Ready value) word.now)) }
{
    let value = word
        .strip_prefix(b"ready=")
        .and_then(|word| read_number(word))?;
    (value <= 1_000_000).then_some(Item::Ready(value))
}
