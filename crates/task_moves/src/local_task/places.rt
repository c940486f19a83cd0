//! Values that are moved in and out of places, and never let go.
ghost use Rattle.std.specs.Prelude.{◌≡◌, true, false, Option, Some, None};
ghost use Rattle.task_moves.specs.declared.local_task.answers.FuturePlace.TheVariants.{Home};
ghost use Rattle.task_moves.specs.LocalTask.{is_home};

use crate::local_task::answers::FuturePlace;

/// The future that stood there, which is replaced.
pub fn taken<F>(future: &mut FuturePlace<F>, place: FuturePlace<F>) -> F
    requires home { is_home future.old ≡ true }
    ensures taken { future.old ≡ Home result }
    ensures left { future.new ≡ place }
{
    match std::mem::replace(future, place) {
        FuturePlace::Home(taken) => taken,
        _ => unreachable!(),
    }
}

/// Says where the future is from now on, where none stood.
pub fn put<F>(future: &mut FuturePlace<F>, place: FuturePlace<F>)
    requires out { is_home future.old ≡ false }
    ensures { future.new ≡ place }
{
    match std::mem::replace(future, place) {
        FuturePlace::Home(_) => unreachable!(),
        _ => {}
    }
}

/// Puts a value where none is.
pub fn store<T>(slot: &mut Option<T>, value: T)
    requires empty { slot.old ≡ None }
    ensures { slot.new ≡ Some value }
{
    match slot.replace(value) {
        Some(_) => unreachable!(),
        None => {}
    }
}
