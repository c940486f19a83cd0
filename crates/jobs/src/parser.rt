//! A text read as jobs.

ghost use Rattle.std.specs.Prelude.{◌≡◌, ◌∷◌, ℕ, List, IfNone, IfOk, IfSome, IsErrOf, IsOkUnless, codes};
ghost use Rattle.jobs.specs.Lines.{IsFirstBadLine, IsShort, IsSpelled, Says, Spells};
ghost use Rattle.jobs.specs.declared.job.Job.{Job};

use crate::job::{Job, LARGEST_SUM};
use std::alloc::Global;
use text_lines::{Lines, ParseError, Words, read_number};

/// How many bytes a line may have.
const LONGEST_LINE: usize = 256;

/// How many lines there may be.
const MOST_LINES: usize = 100_000;

/// The jobs of a text, one a line: `sum <n>`, with an n of at most 1,000,000, or `mul <a> <b>`, with two u64. There is one blank
/// between words, and numbers have digits alone, at most 20 of them. There are at most 100,000 lines of at most 256 bytes; the
/// last may lack its newline. `BadLine` names the first bad line.
pub fn parse(alloc: Global, text: &[u8]) -> Result<Vec<Job>, ParseError>
    ensures jobs { IfOk result (λ jobs. Says text.now jobs.items) }
    ensures only { (jobs : List Job) → Says text.now jobs → IfOk result (λ read. read.items ≡ jobs) }
    ensures bad { (number : ℕ) → IsErrOf result (ParseError.BadLine number) → IsFirstBadLine text.now number }
    ensures accepts { (jobs : List Job) → Says text.now jobs → IsOkUnless result ParseError.NoMemory }
{
    let mut jobs = Vec::new(alloc);
    for line in Lines::of(text) {
        if jobs.len() >= MOST_LINES {
            return Err(ParseError::BadLine(jobs.len() as u64 + 1));
        }
        let Some(job) = read_line(line) else {
            return Err(ParseError::BadLine(jobs.len() as u64 + 1));
        };
        jobs.push(job)?;
    }
    Ok(jobs)
}

/// The job of this line, where it says one.
fn read_line(line: &[u8]) -> Option<Job>
    ensures found { IfSome result (λ job. Spells job line.now × IsShort line.now) }
    ensures none { IfNone result ((job : Job) → Spells job line.now → ¬ (IsShort line.now)) }
{
    if line.len() > LONGEST_LINE {
        return None;
    }
    let mut words = Words::of(line);
    let first = words.next()?;
    if first == b"sum".as_slice() {
        read_sum(words)
    } else if first == b"mul".as_slice() {
        read_product(words)
    } else {
        None
    }
}

/// The job that these words after `sum` say, where they say one.
fn read_sum(mut words: Words<'_>) -> Option<Job>
    ensures found { IfSome result (λ job. IsSpelled job (codes "sum" ∷ words.entry)) }
    ensures none { IfNone result ((job : Job) → ¬ (IsSpelled job (codes "sum" ∷ words.entry))) }
{
    let last = words.next().and_then(|word| read_number(word))?;
    (words.is_empty() && last <= LARGEST_SUM).then_some(Job::Sum(last))
}

/// The job that these words after `mul` say, where they say one.
fn read_product(mut words: Words<'_>) -> Option<Job>
    ensures found { IfSome result (λ job. IsSpelled job (codes "mul" ∷ words.entry)) }
    ensures none { IfNone result ((job : Job) → ¬ (IsSpelled job (codes "mul" ∷ words.entry))) }
{
    let left = words.next().and_then(|word| read_number(word))?;
    let right = words.next().and_then(|word| read_number(word))?;
    words.is_empty().then_some(Job::Mul(left, right))
}
