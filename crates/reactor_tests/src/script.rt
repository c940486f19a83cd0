//! A poller that reports the events that it is given.
use reactor::{Heard, Poller};
use std::io::{self, ErrorKind};
use std::time::Duration;

/// Hears at its next wait of what is in its list, and then fails where it has an error. It keeps how it was asked to wait.
#[derive(Drop)]
pub struct Script {
    pub said: Vec<Heard>,
    pub error: Option<ErrorKind>,
    pub waits: u64,
    pub longest: Option<Duration>,
}

impl Script {
    pub fn new(said: Vec<Heard>) -> Self {
        Script {
            said,
            error: None,
            waits: 0,
            longest: None,
        }
    }
}

impl Poller for Script {
    fn wait(&mut self, longest: Option<Duration>) -> io::Result<()> {
        self.waits = self.waits.saturating_add(1);
        self.longest = longest;
        match self.error {
            Some(kind) => Err(kind.into()),
            None => Ok(()),
        }
    }

    fn heard(&mut self) -> Option<Heard> {
        self.said.pop()
    }
}
