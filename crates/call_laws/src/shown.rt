//! That what these laws speak of does happen.
ghost use Rattle.call_laws.specs.Happens.{CausesAreMet, LawsAreMet};

/// What these laws speak of happens. While a future is polled it is cancelled, and dropped as that poll ends. One is forgotten by all. The
/// output of one is dropped, since nobody reads it. A run's own future is ready, and another's is dropped unpolled, each once. A tick
/// is dropped and gone, a waker used up, and an executor leaked. And steps are refused for each cause.
pub fn what_these_laws_speak_of_happens()
    ensures laws { LawsAreMet }
    ensures causes { CausesAreMet }
{}
