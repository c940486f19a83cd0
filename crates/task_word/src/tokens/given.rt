//! The output that a look has taken out, for who polls the handle.
use std::marker::Model;

/// An output that a look has taken out. It has no drop: the place of the handle gives it, and notes that it did.
pub struct Given<T> {
    value: T,
}

/// A contract sees the output.
impl<T> Model for Given<T> {
    ghost Value = { T };

    ghost view = { λ given. given.value };
}

impl<T> Given<T> {
    ghost use Rattle.std.specs.Prelude.{◌≡◌};

    #[inline(always)]
    pub(crate) fn of(value: T) -> Self
        ensures { result ≡ value }
    {
        Given { value }
    }

    #[inline(always)]
    pub(crate) fn open(self) -> T
        ensures { result ≡ self }
    {
        let Given { value } = self;
        value
    }
}
