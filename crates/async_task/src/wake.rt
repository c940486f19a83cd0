ghost use Rattle.std.specs.Prelude.{◌≡◌, true, Some};

/// What wakes whoever is to poll a future again.
pub trait Wake {
    ghost use Rattle.std.specs.Prelude.{IsTrue, IfSome};

    /// Says that two wakers wake the same.
    ghost is_same: { Self → Self → Type 0 };

    /// Wakes, and is gone.
    fn wake(self);

    /// Wakes, and stays.
    fn wake_by_ref(&self);

    /// Makes a waker that wakes the same, or None where no more can be had.
    fn clone(&self) -> Option<Self>
        ensures { IfSome result (λ copy. is_same copy self.now) };

    /// Whether the two wake the same, as far as the wakers know: a no says nothing.
    fn will_wake(&self, other: &Self) -> bool
        ensures { IsTrue result → is_same self.now other.now };
}

/// A waker from outside that wakes nobody. It is for a caller that polls a handle and looks again without being called, and for
/// programs whose tasks are awaited by tasks alone. After `Waker::noop` of the standard library.
#[derive(Debug, PartialEq, Eq, Drop)]
pub struct Nobody;

impl Wake for Nobody {
    ghost is_same = { λ a b. Unit {0} };

    fn wake(self) {}

    fn wake_by_ref(&self) {}

    fn clone(&self) -> Option<Self>
        ensures { result ≡ Some self.now }
    {
        Some(Nobody)
    }

    fn will_wake(&self, other: &Self) -> bool
        ensures { result ≡ true }
    {
        let _ = other;
        true
    }
}
