//! The cell that all handles of one task share, and how a handle finds it.
ghost use Rattle.std.specs.Prelude.{◌≡◌, ◌↔◌, IfErr, IsTrue};

mod calls;
mod fixed;
mod paying;
mod resting;
mod returning;
mod scheduled;
mod site;
mod turns;

use crate::bounds::Output;
use crate::cell::fixed::{Fixed, Slot, no_task_s};
pub(crate) use crate::cell::paying::pay_due;
pub use crate::cell::resting::Detached;
pub(crate) use crate::cell::resting::{
    Duty, KeptWaker, Lost, Lot, Parked, Thing, begin, kept, park,
};
pub use crate::cell::returning::{GoesBack, Returning, close_returned};
pub(crate) use crate::cell::scheduled::find_with;
pub use crate::cell::scheduled::{Due, Scheduled, StoredRunnable, StoredWaker};
pub(crate) use crate::cell::site::Site;
pub(crate) use crate::cell::turns::{Remains, Rest, Woken, owed_runnable, paid, was_woken};
use crate::realm::{Cells, Vacant};
use crate::stored_task::StoredTask;
use counted_slot::{FREE, PRESENT, TAKEN};
use std::alloc::{AllocError, Global};
use std::marker::Model;
use std::sync::Wait;
use task_word::tokens;

/// A task's state as a word, with its future, output and awaiter in slots beside it.
pub(crate) type Word<F, T, W> = task_word::Cell<F, T, Kept<W>>;

/// A Runnable: the right to the future.
pub(crate) type RunnableToken<F, T, W> = tokens::Runnable<F, T, Kept<W>>;

/// One reference.
pub(crate) type WakerToken<F, T, W> = tokens::Waker<F, T, Kept<W>>;

/// The handle.
pub(crate) type TaskToken<F, T, W> = tokens::Task<F, T, Kept<W>>;

/// Where the handle lies between its calls.
pub(crate) type Place<F, T, W> = tokens::TaskPlace<F, T, Kept<W>>;

/// The place of a task: its word and slots, and what never changes while the task is there. It lies there for good, and serves
/// one task after another.
pub struct Cell<F, T, S, M, W> {
    word: Word<F, T, W>,
    fixed: Slot<S, M>,
}

// Written out, so that crates above call it, and don't prove the drops of all its parts once more.
impl<F: Drop, T: Drop, S: Drop, M: Drop, W: Drop> Drop for Cell<F, T, S, M, W> {
    fn drop(self) {
        let Cell {
            word: _word,
            fixed: _fixed,
        } = self;
    }
}

impl<F: Drop, T: Drop, S: Drop, M: Drop, W: Drop> Vacant for Cell<F, T, S, M, W> {
    fn vacant(alloc: Global) -> Result<Self, AllocError> {
        Ok(Cell {
            word: task_word::Cell::new(alloc)?,
            fixed: no_task_s(),
        })
    }
}

/// Where the cells of tasks of these types lie: futures `F` with outputs `T`, schedule values `S`,
/// metadata `M`, and wakers `W` from outside. `Realm::leak` makes one.
pub type Realm<F, T, S, M, W> = Cells<Cell<F, T, S, M, W>>;

/// Which task: the number of its realm, and its place there.
#[derive(Clone, Copy, Debug, PartialEq, Eq)]
pub struct Identity {
    pub realm: u64,
    pub place: usize,
}

/// A waker as a cell keeps it.
#[derive(Drop)]
pub enum Kept<W> {
    /// Of a task of the same realm, in whose cell one of its references rests.
    Task(KeptWaker),
    /// From outside.
    Outside(W),
    /// None: a waker of a task of another realm couldn't be found from here, and is called at once.
    Nothing,
}

/// A way to one task's cell, with its metadata. What it stands for (the handle, a waker, a Runnable, a run) is a token
/// beside it.
#[derive(Drop)]
pub struct Held<F: 'static, T: 'static, S: 'static, M: 'static, W: 'static, R> {
    realm: &'static Realm<F, T, S, M, W>,
    cell: &'static Cell<F, T, S, M, W>,
    place: usize,
    metadata: M,
    rt: R,
}

impl<F: 'static, T: 'static, S: 'static, M: 'static, W: 'static, R> Model
    for Held<F, T, S, M, W, R> {
    ghost use Rattle.async_task.specs.Handles.{Handle};

    ghost Value = { Handle M };

    ghost view = { λ h. record {
      identity = record { realm = h.realm.now.number; place = h.place };
      metadata = h.metadata;
    } };
}

/// What a task is made of.
#[derive(Debug, Drop)]
pub struct Parts<F, S, M> {
    pub future: F,
    pub schedule: S,
    pub metadata: M,
}

/// A new task: the way to it, its Runnable, and its handle.
pub(crate) struct Made<F: 'static, T: 'static, S: 'static, M: 'static, W: 'static, R> {
    pub held: Held<F, T, S, M, W, R>,
    pub token: RunnableToken<F, T, W>,
    pub task: TaskToken<F, T, W>,
    pub duty: Duty,
}

/// Where a new task lies, its Runnable, and its handle.
struct Spot<F: 'static, T: 'static, S: 'static, M: 'static, W: 'static> {
    place: usize,
    cell: &'static Cell<F, T, S, M, W>,
    token: RunnableToken<F, T, W>,
    task: TaskToken<F, T, W>,
    duty: Duty,
}

impl<F, T: Output, S, M, W, R> Held<F, T, S, M, W, R>
where
    F: Drop + 'static,
    S: Drop + 'static,
    M: Copy + Drop + 'static,
    W: Drop + 'static,
    R: Wait + Copy + Drop,
{
    ghost use Rattle.std.specs.Prelude.{IfOk, IfSome};

    /// A new task, to be run. For want of memory everything comes back.
    #[inline(always)]
    pub(crate) fn new(
        rt: R,
        realm: &'static Realm<F, T, S, M, W>,
        parts: Parts<F, S, M>,
    ) -> Result<Made<F, T, S, M, W, R>, Parts<F, S, M>>
        ensures made { IfOk result (λ made. made.held.metadata ≡ parts.metadata) }
        ensures here { IfOk result (λ made. made.held.identity.realm ≡ realm.now.number) }
        ensures refused { IfErr result (λ back. back ≡ parts) }
    {
        let metadata = parts.metadata;
        match make(&rt, realm, parts) {
            Ok(spot) => {
                let Spot {
                    place,
                    cell,
                    token,
                    task,
                    duty,
                } = spot;
                let held = Held::of(rt, realm, place, cell, metadata);
                Ok(Made {
                    held,
                    token,
                    task,
                    duty,
                })
            }
            Err(parts) => Err(parts),
        }
    }

    /// The way to the cell at this place.
    fn of(
        rt: R,
        realm: &'static Realm<F, T, S, M, W>,
        place: usize,
        cell: &'static Cell<F, T, S, M, W>,
        metadata: M,
    ) -> Self
        ensures place { result.identity ≡ record { realm = realm.now.number; place = place } }
        ensures metadata { result.metadata ≡ metadata }
    {
        Held {
            realm,
            cell,
            place,
            metadata,
            rt,
        }
    }

    /// One more way to the same cell.
    pub fn share(&self) -> Self
        ensures { result ≡ self.now }
    {
        Held {
            realm: self.realm,
            cell: self.cell,
            place: self.place,
            metadata: self.metadata,
            rt: self.rt,
        }
    }

    /// The way to the task at this place, which has this metadata.
    pub fn at(
        rt: R,
        realm: &'static Realm<F, T, S, M, W>,
        place: usize,
        metadata: M,
    ) -> Option<Self>
        ensures place { IfSome result
            (λ held. held.identity ≡ record { realm = realm.now.number; place = place }) }
        ensures metadata { IfSome result (λ held. held.metadata ≡ metadata) }
    {
        match realm.lasting(place) {
            Some(cell) => Some(Held::of(rt, realm, place, cell, metadata)),
            None => None,
        }
    }

    /// The place of the task, without its metadata.
    #[inline(always)]
    pub(crate) fn site(&self) -> Site<F, T, S, M, W, R>
        ensures { result.identity ≡ self.now.identity }
    {
        Site::of(self.rt, self.realm, self.place, self.cell)
    }

    /// The handle for a list.
    pub(crate) fn stored_task(&self, parked: Parked) -> StoredTask<M>
        ensures { result ≡ self.now }
    {
        let realm = self.realm;
        StoredTask::at(&realm.returns, self.place, self.metadata, parked)
    }

    /// Where the task lies.
    pub fn realm(&self) -> &'static Realm<F, T, S, M, W>
        ensures { result.now.number ≡ self.now.identity.realm }
    {
        self.realm
    }

    /// Which task it is.
    pub fn identity(&self) -> Identity
        ensures { result ≡ self.now.identity }
    {
        let (realm, place) = (self.realm.number(), self.place);
        Identity { realm, place }
    }

    /// Whether both lead to one task.
    pub(crate) fn is_of(&self, other: &Self) -> bool
        ensures { IsTrue result ↔ self.now.identity ≡ other.now.identity }
    {
        self.identity() == other.identity()
    }

    /// The runtime value that the task was made with.
    pub fn rt(&self) -> R {
        self.rt
    }

    /// The metadata that the task was made with.
    pub fn metadata(&self) -> &M
        ensures { result.now ≡ self.now.metadata }
    {
        &self.metadata
    }
}

/// The cell at a place that nobody else has. It is made where no task lay there before; for want of memory the place goes back.
#[inline(always)]
fn furnished<F, T: Output, S, M, W>(
    realm: &'static Realm<F, T, S, M, W>,
    place: usize,
) -> Option<&'static Cell<F, T, S, M, W>>
where
    F: Drop + 'static,
    S: Drop + 'static,
    M: Copy + Drop + 'static,
    W: Drop + 'static,
{
    match realm.lasting(place) {
        Some(cell) => Some(cell),
        None => {
            if realm.furnish(place).is_none() {
                realm.release(place);
                return None;
            }
            realm.lasting(place)
        }
    }
}

/// A new task in a cell that nobody has. A place may be taken as free whose cell isn't empty: that cell is passed over. All comes
/// back where there is no place.
#[inline(always)]
fn make<F, T: Output, S, M, W, R>(
    rt: &R,
    realm: &'static Realm<F, T, S, M, W>,
    parts: Parts<F, S, M>,
) -> Result<Spot<F, T, S, M, W>, Parts<F, S, M>>
where
    F: Drop + 'static,
    S: Drop + 'static,
    M: Copy + Drop + 'static,
    W: Drop + 'static,
    R: Wait,
    ensures { IfErr result (λ back. back ≡ parts) }
{
    let mut parts = parts;
    for _ in rt.forever() {
        let Some(place) = realm.vacancy() else {
            return Err(parts);
        };
        let Some(cell) = furnished(realm, place) else {
            return Err(parts);
        };
        match fill(rt, cell, parts) {
            Ok((token, task, duty)) => {
                return Ok(Spot {
                    place,
                    cell,
                    token,
                    task,
                    duty,
                });
            }
            Err(back) => parts = back,
        }
    }
    unreachable!()
}

/// A new task in this cell, where it is empty; else all comes back.
#[inline(always)]
fn fill<F, T: Output, S, M, W, R>(
    rt: &R,
    cell: &'static Cell<F, T, S, M, W>,
    parts: Parts<F, S, M>,
) -> Result<(RunnableToken<F, T, W>, TaskToken<F, T, W>, Duty), Parts<F, S, M>>
where
    F: Drop + 'static,
    S: Drop + 'static,
    M: Copy + Drop + 'static,
    W: Drop + 'static,
    R: Wait,
    ensures { IfErr result (λ back. back ≡ parts) }
{
    let (found, claim) = cell.fixed.turn(FREE, TAKEN);
    if found != FREE {
        claim.done();
        return Err(parts);
    }
    let Parts {
        future,
        schedule,
        metadata,
    } = parts;
    match begin(&cell.word, rt, future) {
        Ok(made) => {
            drop(claim.put(Some(Fixed { schedule, metadata }), PRESENT));
            Ok(made)
        }
        Err(future) => {
            drop(claim.put(None, FREE));
            Err(Parts {
                future,
                schedule,
                metadata,
            })
        }
    }
}
