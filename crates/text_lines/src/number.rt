//! How numbers are written.

ghost use Rattle.std.specs.Prelude.{ℕ, ◌^◌, ◌<◌, IfNone, IfSome};
ghost use Rattle.text_lines.specs.Number.{IsNumber};

use std::str;

/// The number that a word of 1 to 20 decimal digits stands for, where it is below 2^64.
pub fn read_number(word: &[u8]) -> Option<u64>
    ensures found { IfSome result (λ number. IsNumber word.now number) }
    ensures none { IfNone result ((number : ℕ) → number < 2 ^ 64 → ¬ (IsNumber word.now number)) }
{
    if word.len() > 20 || !word.iter().all(u8::is_ascii_digit) {
        return None;
    }
    str::from_utf8(word).ok()?.parse().ok()
}
