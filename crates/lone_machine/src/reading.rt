//! When a run reads the list of queues.
ghost use Rattle.executor_model.specs.Steps.{Machine};
ghost use Rattle.lone_machine.specs.Reading.{ReadsIt};

/// An act in which a run's own future is pending reads the list of queues, where nothing stands in the run's own queue nor in the
/// executor's two.
pub fn searches_read_the_list()
    ensures { (s : Machine) → ReadsIt s }
{}
