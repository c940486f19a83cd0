//! The lock of the list of queues.
ghost use Rattle.std.specs.Prelude.{◌≡◌, ◌↔◌, ◌+◌, ◌-◌, ◌<◌, ◌^◌, ◌==◌, ◌||◌, true, false, not, IsTrue};

/// A lock that one writer has, or any number of readers. Who has it is not kept.
#[derive(Drop)]
pub struct Lock {
    writing: bool,
    readers: u64,
}

impl Lock {
    /// Nobody has it.
    pub fn free() -> Lock
        ensures writing { result.writing ≡ false }
        ensures readers { result.readers ≡ 0 }
    {
        Lock {
            writing: false,
            readers: 0,
        }
    }

    /// A writer has it.
    pub fn is_writing(&self) -> bool
        ensures { result ≡ self.now.writing }
    {
        self.writing
    }

    /// A writer has it, or a reader.
    pub fn is_taken(&self) -> bool
        ensures { result ≡ (self.now.writing || not (self.now.readers == 0)) }
    {
        self.writing || self.readers != 0
    }

    /// One more reader can be counted.
    pub fn counts_on(&self) -> bool
        ensures { IsTrue result ↔ self.now.readers + 1 < 2 ^ 64 }
    {
        self.readers < u64::MAX
    }

    /// A writer takes it.
    pub fn lock_write(&mut self)
        ensures { self.new ≡ record self.old { writing = true } }
    {
        self.writing = true;
    }

    /// The writer gives it back.
    pub fn unlock_write(&mut self)
        ensures { self.new ≡ record self.old { writing = false } }
    {
        self.writing = false;
    }

    /// One more reader takes it.
    pub fn lock_read(&mut self)
        requires { self.old.readers + 1 < 2 ^ 64 }
        ensures { self.new ≡ record self.old { readers = self.old.readers + 1 } }
    {
        self.readers += 1;
    }

    /// A reader gives it back.
    pub fn unlock_read(&mut self)
        ensures { self.new ≡ record self.old { readers = self.old.readers - 1 } }
    {
        self.readers = self.readers.saturating_sub(1);
    }
}
