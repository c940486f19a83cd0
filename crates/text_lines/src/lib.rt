//! The lines of a text, the words of a line, and numbers: what the languages of this repository are written in.
#![tactic(auto)]

mod cut;
mod error;
mod lines;
mod number;
mod words;

pub use error::ParseError;
pub use lines::Lines;
pub use number::read_number;
pub use words::Words;
