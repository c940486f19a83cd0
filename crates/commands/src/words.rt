//! The words behind the program's name.

ghost use Rattle.std.specs.Prelude.{◌≡◌, ◌≤◌, ◌∷◌, [], ℕ, IfNone, IfSome, map, string_bytes};
ghost use Rattle.commands.specs.Asked.{AskFor};
ghost use Rattle.text_lines.specs.Number.{IsNumber};

use text_lines::read_number;

/// How many workers there may be.
const MOST_WORKERS: u64 = 64;

/// What the program is asked to do.
#[derive(Clone, Copy, Debug)]
pub enum Asked {
    /// To run a script.
    Sim,
    /// To do jobs on so many workers, 1 to 64.
    Jobs(usize),
}

/// What these words ask for: `sim`, or `jobs` and a number of workers of 1 to 20 digits. None for any others.
pub fn read_words(words: &[String]) -> Option<Asked>
    ensures found { IfSome result (λ asked. AskFor (map string_bytes words.now) asked) }
    ensures none { IfNone result ((asked : Asked) → ¬ (AskFor (map string_bytes words.now) asked)) }
{
    match words {
        [word] => {
            if word.as_str() == "sim" {
                Some(Asked::Sim)
            } else {
                None
            }
        }
        [word, count] => {
            if word.as_str() == "jobs" {
                match workers(count.as_bytes()) {
                    Some(workers) => Some(Asked::Jobs(workers)),
                    None => None,
                }
            } else {
                None
            }
        }
        _ => None,
    }
}

/// How many workers a word says.
fn workers(word: &[u8]) -> Option<usize>
    ensures found { IfSome result (λ workers. IsNumber word.now workers × (1 ≤ workers) × (workers ≤ 64)) }
    ensures none { IfNone result ((workers : ℕ) → IsNumber word.now workers → 1 ≤ workers → ¬ (workers ≤ 64)) }
{
    let count = read_number(word)?;
    if (1..=MOST_WORKERS).contains(&count) {
        Some(count as usize)
    } else {
        None
    }
}
