//! One script, and what it has to show.

ghost use Rattle.std.specs.Prelude.{◌≡◌, ◌↔◌, true};
ghost use Rattle.cases.specs.Owed.{Meets};

use crate::shown::Shown;

/// A script, and what it is to show.
#[derive(Clone, Copy)]
pub struct Case<'a> {
    pub script: &'a [u8],
    pub text: &'a [u8],
    /// The first bad line, from 1 on; 0 where no line is bad.
    pub bad_line: u64,
}

impl<'a> Case<'a> {
    /// The first case of a text, and what stands behind it. A case is a line of three numbers, how many
    /// bytes the script has, how many what it shows, and the bad line; then come these bytes and a newline.
    pub fn cut_from(text: &'a str) -> Option<(Case<'a>, &'a str)> {
        let (head, body) = text.split_once('\n')?;
        let (script_length, lengths) = head.split_once(' ')?;
        let (text_length, bad_line) = lengths.split_once(' ')?;
        let (script, body) = cut_at(body, script_length)?;
        let (text, body) = cut_at(body, text_length)?;
        let rest = body.strip_prefix("\n")?;
        let case = Case {
            script: script.as_bytes(),
            text: text.as_bytes(),
            bad_line: bad_line.parse::<u64>().ok()?,
        };
        Some((case, rest))
    }

    /// Whether what was shown is what the script has to show.
    pub fn is_met_by(&self, shown: &Shown) -> bool
        ensures { (result ≡ true) ↔ Meets self.now.text.now self.now.bad_line shown.now }
    {
        match shown {
            Shown::Text(text) => self.bad_line == 0 && text.as_slice() == self.text,
            Shown::BadLine(number) => *number == self.bad_line,
        }
    }
}

/// So many bytes of a text, and the rest.
fn cut_at<'a>(text: &'a str, length: &str) -> Option<(&'a str, &'a str)> {
    let length = length.parse::<usize>().ok()?;
    Some((text.get(..length)?, text.get(length..)?))
}
