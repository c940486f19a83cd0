//! What a script's futures give, and what awaits them from outside.
use crate::stage::Shared;
use async_task::Wake;
use script::Name;
use std::rc::Rc;

/// The output of a future. Its drop is shown.
pub struct Gift {
    name: Name,
    number: u64,
    stage: Option<Shared>,
}

impl Gift {
    /// The output of the future of this name.
    pub fn of(name: Name, number: u64, stage: &Shared) -> Gift {
        Gift {
            name,
            number,
            stage: shared(stage),
        }
    }

    /// The number, where the output was given.
    pub fn into_number(self) -> u64 {
        let Gift {
            name: _,
            number,
            stage,
        } = self;
        drop(stage);
        number
    }
}

impl Drop for Gift {
    fn drop(self) {
        let Gift {
            name,
            number: _,
            stage,
        } = self;
        if let Some(stage) = stage {
            stage.show_on(b"lose", name);
        }
    }
}

/// One more of those that share a stage. Where no more can, what the script shows isn't whole, as where memory lacks.
fn shared(stage: &Shared) -> Option<Shared> {
    match Rc::clone(stage) {
        Ok(other) => Some(other),
        Err(_) => {
            stage.lack_memory();
            None
        }
    }
}

/// The outside waker of this name. Its calls are shown.
#[derive(Drop)]
pub struct Bell {
    name: Name,
    stage: Option<Shared>,
}

impl Bell {
    /// The outside waker of this name.
    pub fn of(name: Name, stage: &Shared) -> Bell {
        Bell {
            name,
            stage: shared(stage),
        }
    }

    /// One that can't be copied, and so is never called.
    pub fn without_copies(name: Name) -> Bell {
        Bell { name, stage: None }
    }
}

impl Wake for Bell {
    ghost is_same = { λ a b. Unit {0} };

    fn wake(self) {
        self.wake_by_ref();
    }

    fn wake_by_ref(&self) {
        if let Some(stage) = &self.stage {
            stage.show_on(b"call", self.name);
        }
    }

    /// A copy is a request of the command that is played.
    fn clone(&self) -> Option<Self> {
        match &self.stage {
            Some(stage) if !stage.asking.is_refused() => Some(Bell::of(self.name, stage)),
            _ => None,
        }
    }

    fn will_wake(&self, other: &Self) -> bool {
        self.name == other.name
    }
}
