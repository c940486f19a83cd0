//! The parties of a script.

ghost use Rattle.std.specs.Prelude.{ℕ, IfNone, IfSome};
ghost use Rattle.script.specs.Party.{IsParty};

use text_lines::read_number;

/// The party that this word names, where it is one.
pub fn read_party(word: &[u8]) -> Option<u32>
    ensures found { IfSome result (λ party. IsParty word.now party) }
    ensures none { IfNone result ((party : ℕ) → ¬ (IsParty word.now party)) }
{
    let party = read_number(word)?;
    if 1 <= party && party <= 9 {
        Some(party as u32)
    } else {
        None
    }
}
