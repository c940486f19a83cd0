//! What the futures of a list do at their polls.

use crate::lists::list::{Holds, Writer};
use std::alloc::AllocError;

impl Writer {
    /// What a future does at a poll.
    pub fn write_item(&mut self, number: u64) -> Result<(), AllocError> {
        let kind = self.draws.below(100);
        if kind < 30 {
            self.text.push_str("self")
        } else if kind < 50 {
            self.write_keep(number)
        } else if kind < 65 {
            self.write_twice()
        } else if kind < 75 {
            self.write_stop(number)
        } else if kind < 85 && self.holds == Holds::All {
            self.text.push_str("nest")
        } else {
            self.text.push_str("pend")
        }
    }

    /// What it does at all polls behind those.
    pub fn write_last_item(&mut self, number: u64) -> Result<(), AllocError> {
        let kind = self.draws.below(100);
        if kind < 10 && self.is_restless {
            self.text.push_str("self")
        } else if kind < 20 {
            self.write_keep(number)
        } else if kind < 30 {
            self.write_twice()
        } else if kind < 40 {
            self.text.push_str("pend")
        } else {
            self.write_ready()
        }
    }

    /// It has a copy of its waker kept.
    fn write_keep(&mut self, number: u64) -> Result<(), AllocError> {
        self.text.push_str("keep")?;
        self.keepers.put(number)
    }

    /// It is ready.
    pub fn write_ready(&mut self) -> Result<(), AllocError> {
        let value = self.draws.below(10);
        self.text.push_str("ready=")?;
        self.text.push((b'0' + (value % 10) as u8) as char)
    }

    /// It polls another's handle, where one is in hand.
    fn write_twice(&mut self) -> Result<(), AllocError> {
        match self.handles.taken(&mut self.draws) {
            Some(other) => self.write_word("twice:", 'f', other),
            None => self.text.push_str("pend"),
        }
    }

    /// It drops another's handle, where one is in hand, or its own.
    fn write_stop(&mut self, number: u64) -> Result<(), AllocError> {
        let other = self.handles.shown(&mut self.draws).unwrap_or(number);
        self.write_word("stop:", 'f', other)
    }
}
