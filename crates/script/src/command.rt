//! The commands of a script.

ghost use Rattle.std.specs.Prelude.{◌≡◌, ◌≢◌, ℕ, [], ◌∷◌, List, IfNone, IfOk, IfSome, codes};
ghost use Rattle.script.specs.Command.{SpellsRequest, Spells};
ghost use Rattle.script.specs.Party.{IsParty};
ghost use Rattle.script.specs.declared.command.Command.{Command};
ghost use Rattle.script.specs.declared.command.Request.{Request};

use crate::party::read_party;
use crate::plain::{Plain, read_plain};
use crate::refusal::Refusal;
use std::alloc::{AllocError, Global};
use text_lines::Words;

/// A command that makes a call.
#[derive(Drop)]
pub struct Request {
    /// Which of its requests for memory are refused.
    pub refusal: Refusal,
    pub plain: Plain,
}

/// One line of a script after the first.
#[derive(Drop)]
pub enum Command {
    /// Party 0 makes the call, and the script goes on when it has ended.
    Whole(Request),
    /// `begin p <command>`: this party begins the call.
    Begin { party: u32, request: Request },
    /// `go p`: this party does the next thing that it has to do.
    Go(u32),
    /// `finish p`: this party goes on until its call has ended.
    Finish(u32),
}

impl Command {
    /// The command of these words, where they are one.
    pub fn from_words(alloc: Global, mut words: Words<'_>) -> Result<Option<Command>, AllocError>
        ensures found { IfOk result (λ found.
            IfSome found (λ command. Spells command words.entry)) }
        ensures none { IfOk result (λ found.
            IfNone found ((command : Command) → ¬ (Spells command words.entry))) }
    {
        let Some(first) = words.next() else {
            return Ok(None);
        };
        if first == b"begin".as_slice() {
            begin(alloc, words)
        } else if first == b"go".as_slice() {
            Ok(party(words).map(Command::Go))
        } else if first == b"finish".as_slice() {
            Ok(party(words).map(Command::Finish))
        } else {
            let request = read_request(alloc, first, words)?;
            Ok(request.map(Command::Whole))
        }
    }
}

/// The command that makes a call of this word and the words behind it, where they are one.
#[tactic(auto, using(crate::proofs::Unread::no_request))]
fn read_request(
    alloc: Global,
    first: &[u8],
    mut words: Words<'_>,
) -> Result<Option<Request>, AllocError>
    ensures found { IfOk result (λ found.
        IfSome found (λ request. SpellsRequest request (first.now ∷ words.entry))) }
    ensures none { IfOk result (λ found.
        IfNone found ((request : Request) → ¬ (SpellsRequest request (first.now ∷ words.entry)))) }
{
    let Some(refusal) = Refusal::from_word(first) else {
        let plain = read_plain(alloc, first, words)?;
        return Ok(plain.map(|plain| Request {
            refusal: Refusal::Nothing,
            plain,
        }));
    };
    let Some(second) = words.next() else {
        return Ok(None);
    };
    let plain = read_plain(alloc, second, words)?;
    Ok(plain.map(|plain| Request { refusal, plain }))
}

/// The command that these words say behind `begin`: a party, and what it begins.
fn begin(alloc: Global, mut words: Words<'_>) -> Result<Option<Command>, AllocError>
    ensures found { IfOk result (λ found.
        IfSome found (λ command. Spells command (codes "begin" ∷ words.entry))) }
    ensures none { IfOk result (λ found.
        IfNone found ((command : Command) → ¬ (Spells command (codes "begin" ∷ words.entry)))) }
{
    let Some(party) = words.next().and_then(read_party) else {
        return Ok(None);
    };
    let Some(first) = words.next() else {
        return Ok(None);
    };
    let request = read_request(alloc, first, words)?;
    Ok(request.map(|request| Command::Begin { party, request }))
}

/// The party that these words name, where they name one.
fn party(mut words: Words<'_>) -> Option<u32>
    ensures found { IfSome result (λ party. (word : List ℕ) × IsParty word party × (words.entry ≡ word ∷ [])) }
    ensures none { IfNone result ((party : ℕ) (word : List ℕ) → IsParty word party → words.entry ≢ word ∷ []) }
{
    let party = words.next().and_then(read_party)?;
    words.is_empty().then_some(party)
}
