//! The text of answers.

ghost use Rattle.std.specs.Prelude.{◌≡◌, ◌++◌, IfOk, OnOk};
ghost use Rattle.jobs.specs.Lines.{answer_text, answers_text, line_text};

use crate::job::Answer;
use std::alloc::{AllocError, Global};

/// A line for each answer, in order: its number, from 0, and what it is.
pub fn print(alloc: Global, answers: &[Answer]) -> Result<Vec<u8>, AllocError>
    ensures { IfOk result (λ text. text.items ≡ answers_text 0 answers.now) }
{
    let mut text = Vec::new(alloc);
    for (number, answer) in answers.iter().enumerate() {
        push_line(&mut text, number as u64, *answer)?;
    }
    Ok(text)
}

fn push_line(text: &mut Vec<u8>, number: u64, answer: Answer) -> Result<(), AllocError>
    ensures { OnOk result (text.new.items ≡ text.old.items ++ line_text number answer) }
{
    let number = format!(in *text.allocator(); "{number} ")?;
    text.extend_from_slice(number.as_bytes())?;
    push_answer(text, answer)?;
    text.extend_from_slice(b"\n")
}

fn push_answer(text: &mut Vec<u8>, answer: Answer) -> Result<(), AllocError>
    ensures { OnOk result (text.new.items ≡ text.old.items ++ answer_text answer) }
{
    match answer {
        Answer::Value(value) => {
            let digits = format!(in *text.allocator(); "{value}")?;
            text.extend_from_slice(digits.as_bytes())
        }
        Answer::TooLarge => text.extend_from_slice(b"too large"),
    }
}
