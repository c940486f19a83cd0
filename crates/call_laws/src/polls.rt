//! That nobody polls what was given up.
ghost use Rattle.executor_model.specs.EveryTrace.{EveryTrace};
ghost use Rattle.call_laws.specs.LeftAlone.{IsLeftAlone};

/// Whatever the parties do, no poll of a future begins once it was cancelled, or once nobody is left who could wake it. A poll that
/// is open as that comes may be answered, once: each answer is one of a poll that began before.
pub fn no_poll_begins_after_a_cancel()
    ensures { EveryTrace IsLeftAlone }
{}
