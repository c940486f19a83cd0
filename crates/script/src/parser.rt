//! A text read as a script.

ghost use Rattle.std.specs.Prelude.{◌≡◌, ◌≢◌, ◌↔◌, Bool, ℕ, suc, ◌+◌, ◌<◌, [], List, None, Ok, Err};
ghost use Rattle.std.specs.Prelude.{IfNone, IfOk, IfSome, IsErrOf, IsOkUnless};
ghost use Rattle.script.specs.Script.{kind_words, IsFirstLine, IsCommand, IsShort, IsScript};
ghost use Rattle.script.specs.BadLine.{IsGood, IsFirstBadLine};
ghost use Rattle.script.specs.declared.command.Command.{Command};

use crate::Script;
use crate::command::Command;
use std::alloc::Global;
use text_lines::{Lines, ParseError, Words, read_number};

/// How many futures a script may ask places for.
const MOST_PLACES: u64 = 1_000_000;

/// How many bytes a line may have. The longest command so far, an urgent spawn of 8 values, has 231.
const LONGEST_LINE: usize = 256;

/// How many lines a script may have.
const MOST_LINES: usize = 10_000;

/// The script of this text, or None where the text has no line. It takes time in line with the
/// length of the text. `BadLine` names the first bad line; `NoMemory` says that memory was refused
/// before a bad line was met.
pub fn parse(alloc: Global, text: &[u8]) -> Result<Option<Script>, ParseError>
    // What is read is in the grammar, and the empty text alone has no line.
    ensures script { IfOk result (λ found.
        IfSome found (λ script. IsScript text.now script.limit script.is_static script.commands.items)) }
    ensures empty { (result ≡ Ok None) ↔ (text.now ≡ []) }

    // A line is called bad only where it is the first that no script has there, so nothing in the
    // grammar is refused.
    ensures bad { (number : ℕ) →
        IsErrOf result (ParseError.BadLine number) → IsFirstBadLine text.now number }
    ensures accepts { (limit : ℕ) (is_static : Bool) (commands : List Command) →
        IsScript text.now limit is_static commands → IsOkUnless result ParseError.NoMemory }

    // What is read is all that the text can say.
    ensures only { (limit : ℕ) (is_static : Bool) (commands : List Command) →
        IsScript text.now limit is_static commands → IfOk result (λ found. IfSome found (λ script.
        (script.limit ≡ limit) × (script.is_static ≡ is_static) × (script.commands.items ≡ commands))) }
{
    let mut lines = Lines::of(text);
    let Some(first) = lines.next() else {
        return Ok(None);
    };
    let Some(opening) = read_opening(first) else {
        return Err(ParseError::BadLine(1));
    };
    let mut commands = Vec::new(alloc);
    for line in lines {
        let command = read_command(alloc, commands.len(), line)?;
        commands.push(command)?;
    }
    Ok(Some(Script {
        limit: opening.limit,
        is_static: opening.is_static,
        commands,
    }))
}

/// What a first line says.
#[derive(Clone, Copy)]
struct Opening {
    limit: u64,
    is_static: bool,
}

/// What this line says as a first one, where it is a good one.
fn read_opening(line: &[u8]) -> Option<Opening>
    ensures found { IfSome result (λ opening.
        IsFirstLine opening.limit opening.is_static line.now × IsShort line.now) }
    ensures none { IfNone result ((limit : ℕ) (is_static : Bool) →
        IsFirstLine limit is_static line.now → ¬ (IsShort line.now)) }
{
    if line.len() > LONGEST_LINE {
        return None;
    }
    let mut words = Words::of(line);
    if words.next()? != b"limit".as_slice() {
        return None;
    }
    let limit = words.next().and_then(|word| read_number(word))?;
    let is_static = read_kind(words)?;
    (1 <= limit && limit <= MOST_PLACES).then_some(Opening { limit, is_static })
}

/// Whether the executor is static, by the words behind its limit: none, or one.
fn read_kind(mut words: Words<'_>) -> Option<bool>
    ensures found { IfSome result (λ is_static. words.entry ≡ kind_words is_static) }
    ensures none { IfNone result ((is_static : Bool) → words.entry ≢ kind_words is_static) }
{
    let Some(word) = words.next() else {
        return Some(false);
    };
    if word != b"static".as_slice() {
        return None;
    }
    words.is_empty().then_some(true)
}

/// The command of a line behind the first line and this many commands.
fn read_command(alloc: Global, before: usize, line: &[u8]) -> Result<Command, ParseError>
    requires { before < 10000 }
    ensures good { IfOk result (λ command.
        IsCommand command line.now × IsGood (suc before) line.now) }
    ensures bad { (number : ℕ) → IsErrOf result (ParseError.BadLine number) →
        (number ≡ before + 2) × ¬ (IsGood (suc before) line.now) }
{
    if before + 1 < MOST_LINES && line.len() <= LONGEST_LINE {
        if let Some(command) = Command::from_words(alloc, Words::of(line))? {
            return Ok(command);
        }
    }
    Err(ParseError::BadLine(before as u64 + 2))
}
