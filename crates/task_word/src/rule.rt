//! What a seat knows of a task's cell, and the kinds of step. Each kind that changes the state ties the new word to the table of
//! moves.
ghost use Rattle.task_moves.specs.Moves as moves;
ghost use Rattle.task_word.specs.Cell.{Cell};
ghost use Rattle.task_word.specs.Awaiter.{notified, end_notified, registered, end_registered, emptied};
ghost use Rattle.task_word.specs.Steps as steps;
ghost use Rattle.task_word.specs.Steps.{view, arrived, looked, looked_by, turned_up, turned_back, tries, swapped};
ghost use Rattle.task_word.specs.Steps.{woken, released, let_go, polled, spent, copied, began, ended, paused, dropped};
ghost use Rattle.task_word.specs.Steps.{reserved, filled, filled_detached, rested, resumed, looked_stored, stored, redeemed};
ghost use Rattle.task_word.specs.Steps.{looked_parked, parked, unparked, runnable_of, handle_of_new};
ghost use Rattle.task_word.specs.declared.rule.Hold.TheVariants.{Nothing};

use atomic_table::{Play, Split, TableRule};

/// What a slot has: a task's future or, once that is dropped, its output; or its awaiter.
#[derive(Drop)]
pub enum Content<F, T, W> {
    Future(F),
    Output(T),
    Awaiter(W),
}

/// What a seat has of a task.
pub enum Hold {
    Nothing,
    /// A waker.
    Reference,
    /// What is left of a run or a closing call whose future is gone: its reference.
    Leaving,
    /// The handle.
    Handle,
    /// A new task: its Runnable, and its handle.
    Made,
    /// A Runnable, with a reference of its own.
    Queued,
    /// A poll, with the future's slot and the Runnable's reference.
    Running,
    /// The drop of a closed task's future, before a poll, with the same.
    Closing,
    /// That drop after a poll.
    Ending,
    /// The making of a task, with the future's slot.
    Filling,
    /// The output, which the handle takes out.
    Spending,
    /// The awaiter's slot, as the handle stores an awaiter there.
    Registering,
    /// That slot, as the handle takes the awaiter out.
    HandleNotifying,
    /// The same by a run or a closing call, with its reference.
    RunNotifying,
    /// That slot with the awaiter that is left where nobody can reach the task any more.
    Emptying,
}

/// What a seat knows. No value of it is made.
pub struct View {
    pub hold: Hold,
    /// The state's word, as the last step on it found it.
    pub found: u64,
    /// The state's word, as that step left it.
    pub left: u64,
    /// The word of stored wakers, as the last step found it, where it was on that word.
    pub stored: Option<u64>,
    /// The word of a stored handle, likewise.
    pub parked: Option<u64>,
}

/// A slot, which is empty or has something.
pub type Slot<F, T, W> = Option<Content<F, T, W>>;

pub struct CellRule;

/// A cell is made with no task.
impl<F, T, W> TableRule<Slot<F, T, W>, View, ()> for CellRule {
    ghost holds = { λ _. Cell };

    ghost first = { λ _. view Nothing 0 0 };
}

/// A new seat.
pub struct Arrive;

impl<F, T, W> Play<Slot<F, T, W>, View> for Arrive {
    ghost then = { λ s m n m'. arrived m' };
}

/// A load.
pub struct Look;

impl<F, T, W> Play<Slot<F, T, W>, View> for Look {
    ghost then = { λ s m n m'. looked m n m' };
}

/// The load by which a task is taken up. Where it is closed, its future has to be dropped.
pub struct LookUp;

impl<F, T, W> Play<Slot<F, T, W>, View> for LookUp {
    ghost then = { λ s m n m'. looked_by turned_up m n m' };
}

/// The load by which a poll ends. Where the task is closed, its future has to be dropped.
pub struct LookBack;

impl<F, T, W> Play<Slot<F, T, W>, View> for LookBack {
    ghost then = { λ s m n m'. looked_by turned_back m n m' };
}

/// A wake by reference. This and each kind of exchange below changes nothing where it fails.
pub struct WakeByReference;

impl<F, T, W> Play<Slot<F, T, W>, View> for WakeByReference {
    ghost then = { λ s m n m'. tries moves.wake_by_reference woken s.first s.second m n m' };
}

/// One reference more.
pub struct Copy;

impl<F, T, W> Play<Slot<F, T, W>, View> for Copy {
    ghost then = { λ s m n m'. tries steps.copy copied s.first s.second m n m' };
}

/// A waker goes.
pub struct Release;

impl<F, T, W> Play<Slot<F, T, W>, View> for Release {
    ghost then = { λ s m n m'. tries moves.release released s.first s.second m n m' };
}

/// A run or a closing call gives its reference up.
pub struct GiveUp;

impl<F, T, W> Play<Slot<F, T, W>, View> for GiveUp {
    ghost then = { λ s m n m'. tries moves.give_up released s.first s.second m n m' };
}

/// A Runnable becomes a run.
pub struct TakeUp;

impl<F, T, W> Play<Slot<F, T, W>, View> for TakeUp {
    ghost then = { λ s m n m'. tries moves.take_up began s.first s.second m n m' };
}

/// The future of a closed task was dropped before a poll.
pub struct SettleClosed;

impl<F, T, W> Play<Slot<F, T, W>, View> for SettleClosed {
    ghost then = { λ s m n m'. tries moves.settle_closed ended s.first s.second m n m' };
}

/// The future of a closed task was dropped after a poll.
pub struct EndClosed;

impl<F, T, W> Play<Slot<F, T, W>, View> for EndClosed {
    ghost then = { λ s m n m'. tries moves.end_closed ended s.first s.second m n m' };
}

/// A poll gave an output, and the future was dropped.
pub struct EndReady;

impl<F, T, W> Play<Slot<F, T, W>, View> for EndReady {
    ghost then = { λ s m n m'. tries moves.end_ready ended s.first s.second m n m' };
}

/// A poll gave no output.
pub struct EndPending;

impl<F, T, W> Play<Slot<F, T, W>, View> for EndPending {
    ghost then = { λ s m n m'. tries moves.end_pending paused s.first s.second m n m' };
}

/// The task is cancelled.
pub struct Cancel;

impl<F, T, W> Play<Slot<F, T, W>, View> for Cancel {
    ghost then = { λ s m n m'. tries moves.cancel woken s.first s.second m n m' };
}

/// A Runnable is let go.
pub struct DropRunnable;

impl<F, T, W> Play<Slot<F, T, W>, View> for DropRunnable {
    ghost then = { λ s m n m'. tries moves.drop_runnable dropped s.first s.second m n m' };
}

/// The handle goes. Where the output lies in the cell, that is taken out first.
pub struct Detach;

impl<F, T, W> Play<Slot<F, T, W>, View> for Detach {
    ghost then = { λ s m n m'. tries moves.detach let_go s.first s.second m n m' };
}

/// A poll of the handle. Where the output is there, that is taken out.
pub struct Poll;

impl<F, T, W> Play<Slot<F, T, W>, View> for Poll {
    ghost then = { λ s m n m'. tries moves.poll polled s.first s.second m n m' };
}

/// It looks again, after it has registered its waker.
pub struct LookAgain;

impl<F, T, W> Play<Slot<F, T, W>, View> for LookAgain {
    ghost then = { λ s m n m'. tries moves.look_again polled s.first s.second m n m' };
}

/// The load after the output was taken out. The empty slot goes home.
pub struct Spend;

impl<F, T, W> Play<Slot<F, T, W>, View> for Spend {
    ghost then = { λ s m n m'. spent m n m' };
}

/// Somebody wants the awaiter called. Where nobody is calling or registering it, its slot is taken.
pub struct Notify;

impl<F, T, W> Play<Slot<F, T, W>, View> for Notify {
    ghost then = { λ s m n m'. tries moves.notify notified s.first s.second m n m' };
}

/// The awaiter was taken out of its slot, which goes home.
pub struct EndNotify;

impl<F, T, W> Play<Slot<F, T, W>, View> for EndNotify {
    ghost then = { λ s m n m'. tries moves.end_notify end_notified s.first s.second m n m' };
}

/// A poll of the handle begins to register its waker. Where nobody is notifying, the awaiter's slot is taken.
pub struct Register;

impl<F, T, W> Play<Slot<F, T, W>, View> for Register {
    ghost then = { λ s m n m'. tries moves.register registered s.first s.second m n m' };
}

/// The waker is stored, or was taken out again. The slot goes home.
pub struct EndRegister;

impl<F, T, W> Play<Slot<F, T, W>, View> for EndRegister {
    ghost then = { λ s m n m'. tries moves.end_register end_registered s.first s.second m n m' };
}

/// The awaiter that was left is taken out of its slot. The cell has no task then.
pub struct Empty;

impl<F, T, W> Play<Slot<F, T, W>, View> for Empty {
    ghost then = { λ s m n m'. emptied s.first m n m' };
}

/// An empty cell is taken for a new task.
pub struct Reserve;

impl<F, T, W> Play<Slot<F, T, W>, View> for Reserve {
    ghost then = { λ s m n m'. swapped reserved s.first s.second m n m' };
}

/// The new task is there.
pub struct Make;

impl<F, T, W> Play<Slot<F, T, W>, View> for Make {
    ghost then = { λ s m n m'. filled s.first m m' };
}

/// The same for a task that is detached.
pub struct MakeDetached;

impl<F, T, W> Play<Slot<F, T, W>, View> for MakeDetached {
    ghost then = { λ s m n m'. filled_detached s.first m m' };
}

/// The right and its reference rest in the word.
pub struct Rest;

impl<F, T, W> Play<Slot<F, T, W>, View> for Rest {
    ghost then = { λ s m n m'. rested m m' };
}

/// They are taken out of it.
pub struct Resume;

impl<F, T, W> Play<Slot<F, T, W>, View> for Resume {
    ghost then = { λ s m n m'. swapped resumed s.first s.second m n m' };
}

/// A load of the word of stored wakers.
pub struct LookStored;

impl<F, T, W> Play<Slot<F, T, W>, View> for LookStored {
    ghost then = { λ s m n m'. looked_stored m n m' };
}

/// A waker's reference rests in that word.
pub struct Store;

impl<F, T, W> Play<Slot<F, T, W>, View> for Store {
    ghost then = { λ s m n m'. stored m m' };
}

/// One is taken out of it.
pub struct Redeem;

impl<F, T, W> Play<Slot<F, T, W>, View> for Redeem {
    ghost then = { λ s m n m'. redeemed s.first m n m' };
}

/// A load of the word of a stored handle.
pub struct LookParked;

impl<F, T, W> Play<Slot<F, T, W>, View> for LookParked {
    ghost then = { λ s m n m'. looked_parked m n m' };
}

/// The handle rests in that word.
pub struct Park;

impl<F, T, W> Play<Slot<F, T, W>, View> for Park {
    ghost then = { λ s m n m'. parked m m' };
}

/// It is taken out of it.
pub struct Unpark;

impl<F, T, W> Play<Slot<F, T, W>, View> for Unpark {
    ghost then = { λ s m n m'. unparked s.first m n m' };
}

/// A new task's handle goes to a seat of its own.
pub struct Parts;

impl Split<View> for Parts {
    ghost left = { runnable_of };

    ghost right = { handle_of_new };
}
