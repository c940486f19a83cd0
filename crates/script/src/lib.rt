//! A script: how many futures the executor has places for, whether it is static, and the commands, one a line.
#![tactic(auto)]

mod command;
mod ending;
mod item;
mod items;
mod name;
mod names;
mod parser;
mod party;
mod plain;
mod refusal;
mod word;

pub use command::{Command, Request};
pub use ending::Ending;
pub use item::Item;
pub use items::Items;
pub use name::Name;
pub use names::Names;
pub use parser::parse;
pub use plain::Plain;
pub use refusal::Refusal;
pub use text_lines::{ParseError, Words};
pub use word::Word;

/// What a script says.
#[derive(Drop)]
pub struct Script {
    /// How many futures may be accepted and not yet dropped: 1 to 1,000,000.
    pub limit: u64,
    /// The executor is static from the first.
    pub is_static: bool,
    pub commands: Vec<Command>,
}
