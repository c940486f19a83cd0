//! Which requests for memory a command is refused.

ghost use Rattle.std.specs.Prelude.{ℕ, List, IfNone, IfSome};
ghost use Rattle.script.specs.Refusal.{IsRefusing};
ghost use Rattle.script.specs.declared.refusal.Refusal.TheVariants.{Only};

use text_lines::read_number;

/// Which of a command's requests for memory are refused.
#[derive(Clone, Copy)]
pub enum Refusal {
    /// None.
    Nothing,
    /// `refuse`: each.
    Each,
    /// `refuse@<k>`: the k-th, counted from 1, and no other; k is from 1 to 100.
    Only(u64),
}

impl Refusal {
    ghost use Rattle.script.specs.Refusal.{IsRefusing};
    ghost use Rattle.script.specs.declared.refusal.Refusal.{Refusal};

    /// What this word refuses, where it stands in front of a command for that.
    #[tactic(auto, using(crate::proofs::Unread::no_refusal))]
    pub fn from_word(word: &[u8]) -> Option<Refusal>
        ensures found { IfSome result (λ refusal. IsRefusing refusal word.now) }
        ensures none { IfNone result ((refusal : Refusal) → ¬ (IsRefusing refusal word.now)) }
    {
        if word == b"refuse".as_slice() {
            return Some(Refusal::Each);
        }
        read_numbered(word)
    }
}

/// What this word refuses, where it names one request.
fn read_numbered(word: &[u8]) -> Option<Refusal>
    ensures found { IfSome result (λ refusal. IsRefusing refusal word.now) }
    ensures none { IfNone result ((number : ℕ) → ¬ (IsRefusing (Only number) word.now)) }
{
    let number = word
        .strip_prefix(b"refuse@")
        .and_then(|word| read_number(word))?;
    (1 <= number && number <= 100).then_some(Refusal::Only(number))
}
