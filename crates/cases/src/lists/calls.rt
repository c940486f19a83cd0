//! The calls of a list on futures, and on the executor, its ticks and its runs.

use crate::lists::list::Writer;
use std::alloc::AllocError;

impl Writer {
    /// A call on a future by its handle or its kept waker, where one may be there.
    pub fn write_on_future(&mut self, kind: u64) -> Result<(), AllocError> {
        if kind < 30 {
            self.write_on_kept("wake")
        } else if kind < 33 {
            self.write_on_kept("unkeep")
        } else if kind < 39 {
            self.write_refusal()?;
            self.write_on_handle("poll")
        } else if kind < 43 {
            self.write_refusal()?;
            self.write_on_handle("cancel")
        } else if kind < 47 {
            self.write_handing_over("detach")
        } else {
            self.write_handing_over("drop")
        }
    }

    /// A call on the executor, a tick or a run.
    pub fn write_on_executor(&mut self, kind: u64) -> Result<(), AllocError> {
        if kind < 57 {
            self.write_refusal()?;
            self.write_line("try")
        } else if kind < 59 {
            self.write_line("empty")
        } else if kind < 75 {
            self.write_on_ticks(kind)
        } else if kind < 98 {
            self.write_on_runs(kind)
        } else {
            self.write_leak()
        }
    }

    fn write_on_ticks(&mut self, kind: u64) -> Result<(), AllocError> {
        if kind < 63 {
            self.write_refusal()?;
            self.write_tick()
        } else if kind < 72 {
            self.write_refusal()?;
            self.write_poll_tick()
        } else {
            match self.ticks.taken(&mut self.draws) {
                Some(tick) => self.write_named("droptick", 't', tick),
                None => self.write_line("empty"),
            }
        }
    }

    fn write_on_runs(&mut self, kind: u64) -> Result<(), AllocError> {
        if kind < 80 {
            self.write_refusal()?;
            self.write_run()
        } else if kind < 95 {
            self.write_refusal()?;
            self.write_poll_run()
        } else {
            match self.runs.taken(&mut self.draws) {
                Some(run) => self.write_named("droprun", 'r', run),
                None => self.write_line("empty"),
            }
        }
    }

    fn write_on_kept(&mut self, word: &str) -> Result<(), AllocError> {
        match self.keepers.shown(&mut self.draws) {
            Some(future) => self.write_named(word, 'f', future),
            None => self.write_line("try"),
        }
    }

    /// A call that leaves the handle.
    fn write_on_handle(&mut self, word: &str) -> Result<(), AllocError> {
        match self.handles.shown(&mut self.draws) {
            Some(future) => self.write_named(word, 'f', future),
            None => self.write_line("try"),
        }
    }

    /// A call that takes the handle.
    fn write_handing_over(&mut self, word: &str) -> Result<(), AllocError> {
        match self.handles.taken(&mut self.draws) {
            Some(future) => self.write_named(word, 'f', future),
            None => self.write_line("try"),
        }
    }

    fn write_tick(&mut self) -> Result<(), AllocError> {
        let number = self.new_seat();
        self.write_named("tick", 't', number)?;
        self.ticks.put(number)
    }

    /// The poll of a tick, or the making of one where none lives.
    fn write_poll_tick(&mut self) -> Result<(), AllocError> {
        match self.ticks.shown(&mut self.draws) {
            Some(tick) => self.write_named("polltick", 't', tick),
            None => self.write_tick(),
        }
    }

    /// A new run, one of four with a future of its own that awaits another.
    pub fn write_run(&mut self) -> Result<(), AllocError> {
        let number = self.new_seat();
        self.write_word("run ", 'r', number)?;
        if self.draws.comes(25) {
            if let Some(other) = self.handles.taken(&mut self.draws) {
                self.write_word(" twice:", 'f', other)?;
            }
        }
        self.end_line()?;
        self.runs.put(number)
    }

    /// The poll of a run, or the making of one where none lives.
    fn write_poll_run(&mut self) -> Result<(), AllocError> {
        match self.runs.shown(&mut self.draws) {
            Some(run) => self.write_named("pollrun", 'r', run),
            None => self.write_run(),
        }
    }

    /// One time of four the leak of an executor, whose ticks and runs are dropped before. A static one has none.
    fn write_leak(&mut self) -> Result<(), AllocError> {
        if self.is_static || !self.draws.comes(25) {
            return self.write_line("try");
        }
        self.write_drops()?;
        self.is_static = true;
        self.write_line("leak")
    }

    /// The drops of all ticks and runs, and then that of the executor, where it has one.
    pub fn write_end(&mut self) -> Result<(), AllocError> {
        self.write_drops()?;
        if self.is_static {
            return Ok(());
        }
        self.write_line("end")
    }

    /// The drops of all ticks, the newest first, and then of all runs.
    fn write_drops(&mut self) -> Result<(), AllocError> {
        for _ in 0..self.seats {
            if let Some(tick) = self.ticks.last() {
                self.write_named("droptick", 't', tick)?;
            }
        }
        for _ in 0..self.seats {
            if let Some(run) = self.runs.last() {
                self.write_named("droprun", 'r', run)?;
            }
        }
        Ok(())
    }

    /// The number of the next tick or run.
    fn new_seat(&mut self) -> u64 {
        let number = self.seats;
        self.seats = number.saturating_add(1);
        number
    }
}
