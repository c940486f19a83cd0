//! The commands that make calls.

ghost use Rattle.std.specs.Prelude.{◌≡◌, ◌≢◌, ℕ, Option, [], ◌∷◌, List, IfNone, IfOk, IfSome, codes};
ghost use Rattle.script.specs.Name.{IsName};
ghost use Rattle.script.specs.Plain.{IsTwice, IsSpelled, spawn_word};
ghost use Rattle.script.specs.declared.plain.Plain.{Plain};

use crate::item::read_twice;
use crate::items::Items;
use crate::name::Name;
use crate::word::Word;
use executor_parts::Mark;
use std::alloc::{AllocError, Global};
use text_lines::Words;

/// A command that makes a call, or two.
#[derive(Drop)]
pub enum Plain {
    /// `spawn f i1 .. ik`: a plain future with 1 to 8 items. `urgent f i1 .. ik`: an urgent one.
    Spawn {
        mark: Mark,
        name: Name,
        items: Items,
    },
    /// `try`: one queued task is taken up.
    Try,
    /// `empty`: whether each accepted future has been dropped.
    Empty,
    /// `wake f`: the kept waker of the future is called.
    Wake(Name),
    /// `unkeep f`: the kept waker of the future is let go.
    Unkeep(Name),
    /// `poll f`: the handle of the future is polled, by the outside waker of this name.
    Poll(Name),
    /// `cancel f`: the future is cancelled by its handle, which is then polled so.
    Cancel(Name),
    /// `detach f`: the handle of the future is let go.
    Detach(Name),
    /// `drop f`: the handle of the future is dropped.
    Drop(Name),
    /// `tick t`: a tick is made.
    Tick(Name),
    /// `polltick t`: the tick is polled, by the outside waker of this name.
    PollTick(Name),
    /// `droptick t`: the tick is dropped.
    DropTick(Name),
    /// `run r`: a run is made, whose own future is never ready. `run r twice:f`: its own future polls the handle of the future
    /// of this name, which it holds, and is ready with twice its output.
    Run {
        name: Name,
        twice: Option<Name>,
    },
    /// `pollrun r`: the run is polled, by the outside waker of this name.
    PollRun(Name),
    /// `droprun r`: the run is dropped.
    DropRun(Name),
    /// `leak`: the executor is made a static one.
    Leak,
    /// `end`: the executor is dropped.
    End,
}

impl Plain {
    ghost use Rattle.script.specs.Plain.{word_of};

    /// The word under which the command's answer is printed.
    pub fn word(&self) -> Word
        ensures { result ≡ word_of self.now }
    {
        match self {
            Plain::Spawn { mark, .. } => Word::of_spawn(*mark),
            Plain::Try => Word::Try,
            Plain::Empty => Word::Empty,
            Plain::Wake(_) => Word::Wake,
            Plain::Unkeep(_) => Word::Unkeep,
            Plain::Poll(_) => Word::Poll,
            Plain::Cancel(_) => Word::Cancel,
            Plain::Detach(_) => Word::Detach,
            Plain::Drop(_) => Word::Drop,
            Plain::Tick(_) => Word::Tick,
            Plain::PollTick(_) => Word::PollTick,
            Plain::DropTick(_) => Word::DropTick,
            Plain::Run { .. } => Word::Run,
            Plain::PollRun(_) => Word::PollRun,
            Plain::DropRun(_) => Word::DropRun,
            Plain::Leak => Word::Leak,
            Plain::End => Word::End,
        }
    }
}

/// The command of this word and the words behind it, where they are one.
pub fn read_plain(
    alloc: Global,
    first: &[u8],
    words: Words<'_>,
) -> Result<Option<Plain>, AllocError>
    ensures found { IfOk result (λ found.
        IfSome found (λ plain. IsSpelled plain (first.now ∷ words.entry))) }
    ensures none { IfOk result (λ found.
        IfNone found ((plain : Plain) → ¬ (IsSpelled plain (first.now ∷ words.entry)))) }
{
    if first == b"spawn".as_slice() {
        spawn(alloc, Mark::Plain, words)
    } else if first == b"urgent".as_slice() {
        spawn(alloc, Mark::Urgent, words)
    } else if first == b"try".as_slice() {
        Ok(words.is_empty().then_some(Plain::Try))
    } else if first == b"empty".as_slice() {
        Ok(words.is_empty().then_some(Plain::Empty))
    } else if first == b"leak".as_slice() {
        Ok(words.is_empty().then_some(Plain::Leak))
    } else if first == b"end".as_slice() {
        Ok(words.is_empty().then_some(Plain::End))
    } else {
        Ok(read_named(first, words))
    }
}

/// The command of this word and the name behind it, where they are one.
#[tactic(auto, using(crate::proofs::Unread::no_plain))]
fn read_named(first: &[u8], words: Words<'_>) -> Option<Plain>
    requires spawn { first.now ≢ codes "spawn" }
    requires urgent { first.now ≢ codes "urgent" }
    requires try_tick { first.now ≢ codes "try" }
    requires empty { first.now ≢ codes "empty" }
    requires leak { first.now ≢ codes "leak" }
    requires end { first.now ≢ codes "end" }
    ensures found { IfSome result (λ plain. IsSpelled plain (first.now ∷ words.entry)) }
    ensures none { IfNone result ((plain : Plain) → ¬ (IsSpelled plain (first.now ∷ words.entry))) }
{
    if first == b"wake".as_slice() {
        named(words).map(Plain::Wake)
    } else if first == b"unkeep".as_slice() {
        named(words).map(Plain::Unkeep)
    } else if first == b"poll".as_slice() {
        named(words).map(Plain::Poll)
    } else if first == b"cancel".as_slice() {
        named(words).map(Plain::Cancel)
    } else if first == b"detach".as_slice() {
        named(words).map(Plain::Detach)
    } else if first == b"drop".as_slice() {
        named(words).map(Plain::Drop)
    } else {
        read_on_tick(first, words)
    }
}

/// The command of this word and the name of a tick behind it, where they are one.
#[tactic(auto, using(crate::proofs::Unread::no_plain))]
fn read_on_tick(first: &[u8], words: Words<'_>) -> Option<Plain>
    requires spawn { first.now ≢ codes "spawn" }
    requires urgent { first.now ≢ codes "urgent" }
    requires try_tick { first.now ≢ codes "try" }
    requires empty { first.now ≢ codes "empty" }
    requires leak { first.now ≢ codes "leak" }
    requires end { first.now ≢ codes "end" }
    requires wake { first.now ≢ codes "wake" }
    requires unkeep { first.now ≢ codes "unkeep" }
    requires poll { first.now ≢ codes "poll" }
    requires cancel { first.now ≢ codes "cancel" }
    requires detach { first.now ≢ codes "detach" }
    requires drop { first.now ≢ codes "drop" }
    ensures found { IfSome result (λ plain. IsSpelled plain (first.now ∷ words.entry)) }
    ensures none { IfNone result ((plain : Plain) → ¬ (IsSpelled plain (first.now ∷ words.entry))) }
{
    if first == b"tick".as_slice() {
        named(words).map(Plain::Tick)
    } else if first == b"polltick".as_slice() {
        named(words).map(Plain::PollTick)
    } else if first == b"droptick".as_slice() {
        named(words).map(Plain::DropTick)
    } else {
        read_on_run(first, words)
    }
}

/// The command of this word and the name of a run behind it, where they are one.
#[tactic(auto, using(crate::proofs::Unread::no_plain))]
fn read_on_run(first: &[u8], words: Words<'_>) -> Option<Plain>
    requires spawn { first.now ≢ codes "spawn" }
    requires urgent { first.now ≢ codes "urgent" }
    requires try_tick { first.now ≢ codes "try" }
    requires empty { first.now ≢ codes "empty" }
    requires leak { first.now ≢ codes "leak" }
    requires end { first.now ≢ codes "end" }
    requires wake { first.now ≢ codes "wake" }
    requires unkeep { first.now ≢ codes "unkeep" }
    requires poll { first.now ≢ codes "poll" }
    requires cancel { first.now ≢ codes "cancel" }
    requires detach { first.now ≢ codes "detach" }
    requires drop { first.now ≢ codes "drop" }
    requires tick { first.now ≢ codes "tick" }
    requires poll_tick { first.now ≢ codes "polltick" }
    requires drop_tick { first.now ≢ codes "droptick" }
    ensures found { IfSome result (λ plain. IsSpelled plain (first.now ∷ words.entry)) }
    ensures none { IfNone result ((plain : Plain) → ¬ (IsSpelled plain (first.now ∷ words.entry))) }
{
    if first == b"run".as_slice() {
        run(words)
    } else if first == b"pollrun".as_slice() {
        named(words).map(Plain::PollRun)
    } else if first == b"droprun".as_slice() {
        named(words).map(Plain::DropRun)
    } else {
        None
    }
}

/// The command that these words say behind `run`: a name, and whose handle its own future polls.
fn run(mut words: Words<'_>) -> Option<Plain>
    ensures found { IfSome result (λ plain. IsSpelled plain (codes "run" ∷ words.entry)) }
    ensures none { IfNone result ((plain : Plain) → ¬ (IsSpelled plain (codes "run" ∷ words.entry))) }
{
    let name = words.next().and_then(Name::new)?;
    let twice = twice(words)?;
    Some(Plain::Run { name, twice })
}

/// The future whose handle the own future of a run polls, by the words behind the run's name: none, or one of a name.
fn twice(mut words: Words<'_>) -> Option<Option<Name>>
    ensures found { IfSome result (λ twice. IsTwice twice words.entry) }
    ensures none { IfNone result ((twice : Option (List ℕ)) → ¬ (IsTwice twice words.entry)) }
{
    let Some(word) = words.next() else {
        return Some(None);
    };
    let name = read_twice(word)?;
    words.is_empty().then_some(Some(name))
}

/// The command that these words say behind `spawn` or `urgent`: a name, and its items.
fn spawn(alloc: Global, mark: Mark, mut words: Words<'_>) -> Result<Option<Plain>, AllocError>
    ensures found { IfOk result (λ found.
        IfSome found (λ plain. IsSpelled plain (spawn_word mark ∷ words.entry))) }
    ensures none { IfOk result (λ found.
        IfNone found ((plain : Plain) → ¬ (IsSpelled plain (spawn_word mark ∷ words.entry)))) }
{
    let Some(name) = words.next().and_then(Name::new) else {
        return Ok(None);
    };
    let items = Items::from_words(alloc, words)?;
    Ok(items.map(|items| Plain::Spawn { mark, name, items }))
}

/// The name that these words are, where they are one name.
fn named(mut words: Words<'_>) -> Option<Name>
    ensures found { IfSome result (λ name. IsName name × (words.entry ≡ name ∷ [])) }
    ensures none { IfNone result ((name : List ℕ) → IsName name → words.entry ≢ name ∷ []) }
{
    let name = words.next().and_then(Name::new)?;
    words.is_empty().then_some(name)
}
