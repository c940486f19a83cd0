//! A text cut at a byte.

ghost use Rattle.std.specs.Prelude.{◌≡◌, ◌≢◌, ◌∷◌, ◌++◌, All, MatchOption};

/// What stands before the first of these bytes, and what stands behind it, where there is one.
pub fn cut(text: &[u8], byte: u8) -> (&[u8], Option<&[u8]>)
    ensures front { All (λ other. other ≢ byte) result.0.now }
    ensures whole { MatchOption result.1 (text.now ≡ result.0.now)
        (λ behind. text.now ≡ result.0.now ++ byte ∷ behind.now) }
{
    match text.iter().position(|other| *other == byte) {
        Some(at) => (&text[..at], Some(&text[at + 1..])),
        None => (text, None),
    }
}
