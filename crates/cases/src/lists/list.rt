//! A list of calls made of a seed.

use crate::lists::draws::Draws;
use crate::lists::names::{Hand, write_name};
use std::alloc::{AllocError, Global};

/// What a list may hold. Lists of one seed differ in nothing else.
#[derive(Clone, Copy, PartialEq, Eq)]
pub enum Holds {
    /// All that the step machine and an executor of one owner answer.
    All,
    /// What running executors answer: a future that runs another in its poll isn't ready here.
    Running,
}

/// A list of whole calls, written as a script.
#[derive(Drop)]
pub struct List {
    pub script: String,
    /// The executor is static, or is leaked.
    pub is_static: bool,
}

/// A list that is being written.
#[derive(Drop)]
pub struct Writer {
    pub draws: Draws,
    pub text: String,
    pub holds: Holds,
    /// Some futures wake themselves for ever.
    pub is_restless: bool,
    pub is_static: bool,
    calls: u64,
    futures: u64,
    /// How many ticks and runs were made.
    pub seats: u64,
    /// The futures whose handles are neither dropped nor given to another future.
    pub handles: Hand,
    /// The futures of which a waker may be kept.
    pub keepers: Hand,
    pub ticks: Hand,
    pub runs: Hand,
}

/// The list of so many calls that this seed makes. One of 25 has 201 spawns or more before them, and makes three runs first, so that
/// runs give way, keep futures and take those of others. Half of the lists have a few calls more, which drop each tick and run, and
/// an executor that isn't static.
pub fn list_of_seed(
    alloc: Global,
    seed: u64,
    calls: u64,
    holds: Holds,
) -> Result<List, AllocError> {
    let mut draws = Draws::of(seed);
    let crowd = if draws.comes(4) {
        draws.below(60).saturating_add(201)
    } else {
        0
    };
    let mut writer = Writer::new(alloc, draws, crowd, holds)?;
    for _ in 0..crowd {
        writer.write_one_of_crowd()?;
    }
    if crowd > 0 {
        for _ in 0..3 {
            writer.write_run()?;
        }
    }
    for _ in 0..calls {
        if writer.calls < calls {
            writer.write_call()?;
        }
    }
    if writer.draws.comes(50) {
        writer.write_end()?;
    }
    Ok(List {
        script: writer.text,
        is_static: writer.is_static,
    })
}

impl Writer {
    /// No call yet: an executor with 1 to 12 places beside those for a crowd, one of four static.
    fn new(alloc: Global, draws: Draws, crowd: u64, holds: Holds) -> Result<Writer, AllocError> {
        let mut draws = draws;
        let limit = draws.below(12).saturating_add(1).saturating_add(crowd);
        let is_static = draws.comes(25);
        let is_restless = draws.comes(15);
        let kind = if is_static { " static" } else { "" };
        Ok(Writer {
            draws,
            text: format!(in alloc; "limit {limit}{kind}\n")?,
            holds,
            is_restless,
            is_static,
            calls: 0,
            futures: 0,
            seats: 0,
            handles: Hand::new(alloc),
            keepers: Hand::new(alloc),
            ticks: Hand::new(alloc),
            runs: Hand::new(alloc),
        })
    }

    /// The next call.
    fn write_call(&mut self) -> Result<(), AllocError> {
        let kind = self.draws.below(100);
        if kind < 20 {
            self.write_refusal()?;
            self.write_spawn()
        } else if kind < 50 {
            self.write_on_future(kind)
        } else {
            self.write_on_executor(kind)
        }
    }

    /// In front of one call of ten: its requests for memory are refused, each or one of the first three.
    pub fn write_refusal(&mut self) -> Result<(), AllocError> {
        let comes = self.draws.comes(10);
        let number = self.draws.below(4);
        if !comes {
            return Ok(());
        }
        match number {
            0 => self.text.push_str("refuse "),
            1 => self.text.push_str("refuse@1 "),
            2 => self.text.push_str("refuse@2 "),
            _ => self.text.push_str("refuse@3 "),
        }
    }

    /// A spawn of a future, of either mark, with up to four items.
    fn write_spawn(&mut self) -> Result<(), AllocError> {
        let number = self.write_mark()?;
        for _ in 0..self.draws.below(4) {
            self.text.push(' ')?;
            self.write_item(number)?;
        }
        self.text.push(' ')?;
        self.write_last_item(number)?;
        self.end_line()?;
        self.handles.put(number)
    }

    /// The word of a spawn, and the name of its future, of which this is the number.
    fn write_mark(&mut self) -> Result<u64, AllocError> {
        let word = if self.draws.comes(40) {
            "urgent "
        } else {
            "spawn "
        };
        let number = self.futures;
        self.write_word(word, 'f', number)?;
        self.futures = number.saturating_add(1);
        Ok(number)
    }

    /// A spawn before the calls, of a future that is ready soon.
    fn write_one_of_crowd(&mut self) -> Result<(), AllocError> {
        let number = self.write_mark()?;
        if self.draws.comes(20) {
            self.text.push_str(" self")?;
        }
        self.text.push(' ')?;
        self.write_ready()?;
        self.text.push('\n')?;
        self.handles.put(number)
    }

    /// A word and a name behind it.
    pub fn write_word(&mut self, word: &str, first: char, number: u64) -> Result<(), AllocError> {
        self.text.push_str(word)?;
        write_name(&mut self.text, first, number)
    }

    /// A call of this word on what has this name.
    pub fn write_named(&mut self, word: &str, first: char, number: u64) -> Result<(), AllocError> {
        self.text.push_str(word)?;
        self.write_word(" ", first, number)?;
        self.end_line()
    }

    /// A call of this word.
    pub fn write_line(&mut self, word: &str) -> Result<(), AllocError> {
        self.text.push_str(word)?;
        self.end_line()
    }

    /// A call is written.
    pub fn end_line(&mut self) -> Result<(), AllocError> {
        self.calls = self.calls.saturating_add(1);
        self.text.push('\n')
    }
}
