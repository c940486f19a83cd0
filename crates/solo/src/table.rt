//! The futures of an executor that aren't dropped, in the order in which they were accepted, each with a waker, where entries count one.
ghost use Rattle.std.specs.Prelude.{◌≡◌, ◌==◌, [], length, IfErr, IfOk, Some, None};
ghost use Rattle.executor_parts.specs.Places.{entry_in, set_future, future_of, parts_of, displaced, turned, first_waker};
ghost use Rattle.solo.specs.Table.{first_parts, left_table, rest_table, Accepts, Refuses};

use crate::cells::Cells;
use crate::names::Task;
use crate::owed::SpawnError;
use executor_parts::{EntryPlace, Mark, Places, SpawnRefused};
use std::alloc::Global;
use std::marker::Model;

/// The table of futures, of which a contract sees the entries and their limit.
#[derive(Drop)]
pub struct Table<F> {
    places: Places<F, Option<Task>>,
}

impl<F> Model for Table<F> {
    ghost use Rattle.solo.specs.Table.{TableValue};

    ghost Value = { TableValue F };

    ghost view = { λ t. record { entries = t.places.entries; limit = t.places.limit; has_room = t.places.has_room } };
}

impl<F> Table<F> {
    /// A table without entries, for at most `limit`, which takes no memory.
    pub fn new(alloc: Global, limit: usize) -> Self
        ensures entries { result.entries ≡ [] }
        ensures limit { result.limit ≡ limit }
    {
        Table {
            places: Places::new(alloc, limit),
        }
    }

    /// A future enters, and its task comes to the cells under this number, with this mark, and one waker where `is_held`. A refused
    /// future comes back, and nothing changes: first the limit is tested, and then memory is asked for.
    pub fn accept<T, X>(
        &mut self,
        cells: &mut Cells<T, X>,
        number: u64,
        is_held: bool,
        mark: Mark,
        future: F,
    ) -> Result<Task, SpawnError<F>>
        ensures accepted { IfOk result (λ task. Accepts number is_held mark future self.old cells.old task self.new cells.new) }
        ensures refused { IfErr result (Refuses future self.old cells.old self.new cells.new) }
    {
        let vacancy = match self.places.vacancy() {
            Ok(vacancy) => vacancy,
            Err(SpawnRefused::Full) => return Err(SpawnError::Full(future)),
            Err(SpawnRefused::NoMemory) => return Err(SpawnError::NoMemory(future)),
        };
        match cells.reserve() {
            Ok(()) => {
                let task = cells.insert(number, vacancy.place(), is_held, mark);
                let waker = if is_held { Some(task) } else { None };
                self.places.enter(vacancy, future, waker);
                Ok(task)
            }
            Err(_) => {
                vacancy.give_back();
                Err(SpawnError::NoMemory(future))
            }
        }
    }

    /// A future is taken out, to be polled or dropped, if it is there.
    #[inline(always)]
    pub fn take(&mut self, place: EntryPlace) -> Option<F>
        ensures table { self.new ≡ record self.old { entries = set_future place None self.old.entries } }
        ensures future { result ≡ future_of (entry_in place self.old.entries) }
    {
        self.places.take(place)
    }

    /// A future is put back. What has no place then comes back.
    #[inline(always)]
    pub fn put_back(&mut self, place: EntryPlace, future: F) -> Option<F>
        ensures table { self.new ≡ record self.old { entries = set_future place (Some future) self.old.entries } }
        ensures over { result ≡ displaced future (entry_in place self.old.entries) }
    {
        self.places.put_back(place, future)
    }

    /// An entry goes, and with it its waker, if it has one.
    #[inline(always)]
    pub fn leave(&mut self, place: EntryPlace) -> Option<(Option<F>, Option<Task>)>
        ensures table { self.new ≡ left_table place self.old }
        ensures parts { result ≡ parts_of (entry_in place self.old.entries) }
    {
        self.places.leave(place)
    }

    /// The first entry goes.
    pub fn leave_first(&mut self) -> Option<(Option<F>, Option<Task>)>
        ensures table { self.new ≡ rest_table self.old }
        ensures parts { result ≡ first_parts self.old.entries }
    {
        self.places.leave_first()
    }

    /// The first entry comes last, and its waker is taken out.
    pub fn turn(&mut self) -> Option<Task>
        ensures table { self.new ≡ record self.old { entries = turned self.old.entries } }
        ensures waker { result ≡ first_waker self.old.entries }
    {
        self.places.turn()
    }

    /// All entries change places with those of another table.
    pub fn exchange(&mut self, other: &mut Table<F>)
        ensures out { other.new ≡ self.old }
        ensures into { self.new ≡ other.old }
    {
        self.places.exchange(&mut other.places);
    }

    /// How many entries there are.
    pub fn len(&self) -> usize
        ensures { result ≡ length self.now.entries }
    {
        self.places.len()
    }

    /// Whether there is no entry.
    pub fn is_empty(&self) -> bool
        ensures { result ≡ (length self.now.entries == 0) }
    {
        self.places.is_empty()
    }
}
