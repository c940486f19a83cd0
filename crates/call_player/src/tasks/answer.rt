//! What calls answer.
use std::alloc::{AllocError, Global};

/// What a call answers.
#[derive(Drop)]
pub enum Answer {
    Ok,
    Done,
    NotPossible,
    Is(bool),
    Number(u64),
    Pending,
    Ready(u64),
    Cancelled,
    Text(String),
}

impl Answer {
    /// The text that a line ends with.
    pub fn into_text(self, alloc: Global) -> Result<String, AllocError> {
        let word = match self {
            Answer::Ok => "ok",
            Answer::Done => "done",
            Answer::NotPossible => "not possible",
            Answer::Is(true) => "true",
            Answer::Is(false) => "false",
            Answer::Pending => "pending",
            Answer::Cancelled => "cancelled",
            Answer::Number(number) => return Ok(format!(in alloc; "{number}")?),
            Answer::Ready(value) => return Ok(format!(in alloc; "ready {value}")?),
            Answer::Text(text) => return Ok(text),
        };
        let mut text = String::new(alloc);
        text.push_str(word)?;
        Ok(text)
    }
}
