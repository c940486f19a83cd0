//! The name of the waker that one sleeps with.
ghost use Rattle.std.specs.Prelude.{◌≡◌};
ghost use Rattle.async_task.specs.declared.cell.Identity.{Identity};
ghost use Rattle.call_steps.specs.declared.names.Waker.{Waker};
ghost use base.Fml.{ftrue};

use crate::task_name::TaskName;
use call_steps::Waker;
use std::marker::{Model, PhantomData};

/// The name of a waker, kept. Only contracts read it: it takes no bytes. It is no `Snapshot`, so that ticks and runs are seen to
/// move to other threads by their fields.
pub struct WakerName {
    marker: PhantomData<TaskName>,
    pub ghost value: { Waker Identity },
}

impl Model for WakerName {
    ghost also_owns = { λ _. ftrue };
}

impl WakerName {
    #[inline(always)]
    pub fn of(name: &Waker<TaskName>) -> WakerName
        ensures { result.value ≡ name.now }
    {
        let _ = name;
        WakerName {
            marker: PhantomData,
        }
    }
}

impl Drop for WakerName {
    fn drop(self) {
        let Self { marker: _ } = self;
    }
}

unsafe impl Send for WakerName {}

unsafe impl Sync for WakerName {}
