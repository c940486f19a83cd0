//! What a poll of the library's is made with, in a form that goes to another thread.
ghost use Rattle.std.specs.Prelude.{◌≡◌};
ghost use base.Fml.{ftrue};

use futures::task::Context;
use std::marker::Model;

/// A context, to be handed to another thread. The library's type doesn't show that it may go there, for its trail: that has no bytes,
/// and owns nothing. So it is shown here. It is only put in and taken out.
pub struct Carried {
    cx: Context<'static>,
}

impl Model for Carried {
    ghost also_owns = { λ _. ftrue };
}

impl Carried {
    pub(crate) fn of(cx: Context<'static>) -> Carried
        ensures { result.cx ≡ cx.entry }
    {
        Carried { cx }
    }

    pub(crate) fn into_context(self) -> Context<'static>
        ensures { result ≡ self.cx }
    {
        let Carried { cx } = self;
        cx
    }
}

/// Ends the task.
impl Drop for Carried {
    fn drop(self) {
        self.into_context().cancel();
    }
}

unsafe impl Send for Carried {}
