//! What a task with one owner does about its awaiter, by the moves on the marks for it.
ghost use Rattle.std.specs.Prelude.{◌≡◌, ◌&&◌, ◌<◌, ◌^◌, false, not, Option, Some, None};
ghost use Rattle.task_moves.specs.declared.moves.owed.Move.TheVariants.{GiveUp};
ghost use Rattle.task_moves.specs.Moves as moves;
ghost use Rattle.task_moves.specs.LocalTask.{finish_answer_by};
ghost use Rattle.task_moves.specs.Paying.{notified, called, uncalled, registered};

use crate::local_task::answers::Finish;
use crate::moves;
use crate::moves::{AwaiterDebt, Moved, State};

/// A state, and the awaiter that came out on the way to it and is to be woken.
pub struct Called<A> {
    pub state: State,
    pub awaiter: Option<A>,
}

/// Takes the awaiter out where the mover owes that.
pub fn notify<A>(moved: Moved, awaiter: &mut Option<A>) -> Called<A>
    requires unregistered { moved.state.registering ≡ false }
    requires unnotified { moved.state.notifying ≡ false }
    ensures state { result.state ≡ notified moved.owed.awaiter moved.state }
    ensures called { result.awaiter ≡ called moved.owed.awaiter awaiter.old }
    ensures rest { awaiter.new ≡ uncalled moved.owed.awaiter awaiter.old }
{
    match moved.owed.awaiter {
        Some(AwaiterDebt::NotifyAwaiter) => {
            let begun = moves::notify(moved.state);
            let ended = moves::end_notify(begun.state);
            Called {
                state: ended.state,
                awaiter: awaiter.take(),
            }
        }
        _ => Called {
            state: moved.state,
            awaiter: None,
        },
    }
}

/// Takes the awaiter out where the last move of a run or a closing call owes that, and makes the
/// move that gives the reference up.
pub fn give_up<A>(moved: Moved, awaiter: &mut Option<A>) -> Called<A>
    requires unregistered { moved.state.registering ≡ false }
    requires unnotified { moved.state.notifying ≡ false }
    requires next { moved.owed.next ≡ Some GiveUp }
    requires held { 0 < moved.state.references }
    ensures state { result.state ≡ (moves.give_up (notified moved.owed.awaiter moved.state)).state }
    ensures called { result.awaiter ≡ called moved.owed.awaiter awaiter.old }
    ensures rest { awaiter.new ≡ uncalled moved.owed.awaiter awaiter.old }
{
    let Called {
        state,
        awaiter: called,
    } = notify(moved, awaiter);
    Called {
        state: moves::give_up(state).state,
        awaiter: called,
    }
}

/// Notifies where nobody awaits the task.
pub fn notify_nobody(moved: Moved) -> State
    requires unregistered { moved.state.registering ≡ false }
    requires unnotified { moved.state.notifying ≡ false }
    ensures { result ≡ record moved.state { awaiter = false } }
{
    moves::end_notify(moves::notify(moved.state).state).state
}

/// Registers a waker where nobody is notifying.
pub fn register(state: State) -> State
    requires unnotified { state.notifying ≡ false }
    requires no_output { (state.completed && not state.closed) ≡ false }
    ensures { result ≡ registered state }
{
    let begun = moves::register(state);
    let ended = moves::end_register(begun.state);
    moves::look_again(ended.state).state
}

/// An awaiter that is there is to be woken.
pub fn woken<A>(awaiter: Option<A>) -> Finish<A>
    ensures { result ≡ finish_answer_by awaiter None }
{
    match awaiter {
        Some(awaiter) => Finish::Wake(awaiter),
        None => Finish::Nothing,
    }
}

/// An awaiter that is there is to be dropped.
pub fn let_go<A>(awaiter: Option<A>) -> Finish<A>
    ensures { result ≡ finish_answer_by None awaiter }
{
    match awaiter {
        Some(awaiter) => Finish::Drop(awaiter),
        None => Finish::Nothing,
    }
}
