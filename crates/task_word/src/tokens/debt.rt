//! What is handed out to be called or dropped.
use std::marker::Model;

/// A value that its holder still has to call or drop: an awaiter to call, a future or an output to drop. Its holder has to open
/// it.
pub struct Debt<X> {
    value: X,
}

/// A contract sees the value.
impl<X> Model for Debt<X> {
    ghost Value = { X };

    ghost view = { λ debt. debt.value };
}

impl<X> Debt<X> {
    ghost use Rattle.std.specs.Prelude.{◌≡◌};

    #[inline(always)]
    pub(crate) fn of(value: X) -> Self
        ensures { result ≡ value }
    {
        Debt { value }
    }

    #[inline(always)]
    pub(crate) fn of_some(value: Option<X>) -> Option<Self>
        ensures { result ≡ value }
    {
        match value {
            Some(value) => Some(Debt { value }),
            None => None,
        }
    }

    /// The value, which is now to be called or dropped.
    #[inline(always)]
    pub fn pay(self) -> X
        ensures { result ≡ self }
    {
        let Debt { value } = self;
        value
    }
}
