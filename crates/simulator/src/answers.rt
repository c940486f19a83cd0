//! From the text of a script to what its run shows.

ghost use Rattle.std.specs.Prelude.{IfErr, IfOk, IsOkUnless};
ghost use Rattle.simulator.specs.Answer.{IsAnswer, IsErrorOf, IsGoodInput};
ghost use Rattle.simulator.specs.ScriptText.{IsTextOf};

use crate::{play, print};
use script::{ParseError, Script, parse};
use std::alloc::{AllocError, Global};

/// What is written for an input: nothing where it has no line, and else what its script shows. The
/// errors are `BadLine` with the first bad line, and `NoMemory`.
pub fn answer(alloc: Global, input: &[u8]) -> Result<Vec<u8>, ParseError>
    ensures answer { IfOk result (λ text. IsAnswer input.now text.items) }
    ensures error { IfErr result (IsErrorOf input.now) }
    ensures good_input { IsGoodInput input.now → IsOkUnless result ParseError.NoMemory }
{
    let Some(script) = parse(alloc, input)? else {
        return Ok(Vec::new(alloc));
    };
    Ok(show(alloc, &script)?)
}

/// What the run of a script shows.
fn show(alloc: Global, script: &Script) -> Result<Vec<u8>, AllocError>
    ensures { IfOk result (λ text.
        IsTextOf script.now.limit script.now.is_static script.now.commands.items text.items) }
{
    let played = play::run(
        alloc,
        script.limit,
        script.is_static,
        script.commands.as_slice(),
    )?;
    print::text_of(
        alloc,
        played.moments.as_slice(),
        &played.names,
        &played.ticks,
        &played.runs,
    )
}
