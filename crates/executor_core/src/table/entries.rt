//! The entries of the machine's futures, by the numbers of these.
ghost use Rattle.std.specs.Prelude.{◌≡◌, ◌≢◌, ℕ, ◌<◌, ◌==◌, ◌++◌, true, false, List, [], ◌∷◌, length, slice_set};
ghost use Rattle.std.specs.Prelude.{OnOk, IsOk, IfOk, IfErr, IfSome, IfNone, Some, map, ◌+◌, ◌≤◌};
ghost use Rattle.std.specs.VecDeque.{deque_len, deque_capacity};
ghost use Rattle.executor_model.specs.World.{without, among};
ghost use Rattle.executor_parts.specs.Order.{IsApart};
ghost use Rattle.executor_parts.specs.Places.{entry_in, waker_of};
ghost use Rattle.executor_core.specs.Entered.{AreSeated, IsRefusal, IsVacancy, futures_of, place_in, present_of};

use executor_parts::{EntryPlace, Places, SpawnRefused, Vacancy};
use std::alloc::{AllocError, Global};
use std::collections::VecDeque;
use std::marker::Model;

/// The table of the machine, and what the executor's drop has taken out of it. A future is named by its number, which
/// is also its waker; there is nothing more to it.
#[derive(Drop)]
pub struct Entries {
    table: Places<(), u64>,
    leaving: Places<(), u64>,
    // By the numbers of the futures.
    seats: Vec<Seat>,
}

#[derive(Clone, Copy)]
struct Seat {
    // Where its entry is, where it has one.
    place: EntryPlace,
    // It is in its place.
    inside: bool,
}

impl Model for Entries {
    ghost use Rattle.std.specs.Prelude.{◌≡◌, map, nat_lt, ◌&&◌, vec_len, vec_capacity};
    ghost use Rattle.executor_core.specs.Entered.{Entered, AreSeated, IsRising, futures_of, present_of};

    ghost Value = { Entered };

    ghost view = { λ e. record {
      table = futures_of e.table.entries;
      leaving = futures_of e.leaving.entries;
      present = present_of e.table.entries;
      inside = map (λ s. s.inside) e.seats.items;
      limit = e.table.limit;
      next = e.table.next;
      has_room = e.table.has_room && nat_lt (vec_len e.seats) (vec_capacity e.seats);
    } };

    ghost invariant = { λ e. AreSeated e.seats.items e.table.entries × AreSeated e.seats.items e.leaving.entries
        × (e.leaving.limit ≡ e.table.limit) × IsRising 0 (futures_of e.table.entries)
        × IsRising 0 (futures_of e.leaving.entries) };
}

/// Where this future has an entry, if it has one.
fn find(table: &Places<(), u64>, seats: &Vec<Seat>, f: u64) -> Option<EntryPlace>
    requires { AreSeated seats.now.items table.now.entries }
    ensures here { IfSome result (λ place. place_in seats.now.items f ≡ Some place) }
    ensures found { IfSome result (λ place. waker_of (entry_in place table.now.entries) ≡ Some f) }
    ensures apart { IfSome result (λ place. IsApart (map (λ e. e.key) table.now.entries)) }
    ensures absent { IfNone result (among f (futures_of table.now.entries) ≡ false) }
{
    if f >= seats.len() as u64 {
        return None;
    }
    let place = seats[f as usize].place;
    let waker = match table.waker(place) {
        Some(waker) => waker,
        None => return None,
    };
    if *waker == f { Some(place) } else { None }
}

/// The future is taken out of its entry, where it has one.
fn take_from(table: &mut Places<(), u64>, seats: &Vec<Seat>, f: u64)
    requires { AreSeated seats.now.items table.old.entries }
    ensures seated { AreSeated seats.now.items table.new.entries }
    ensures futures { futures_of table.new.entries ≡ futures_of table.old.entries }
    ensures out { present_of table.new.entries ≡ without f (present_of table.old.entries) }
    ensures rest { table.new ≡ record table.old { entries = table.new.entries } }
{
    match find(table, seats, f) {
        Some(place) => {
            table.take(place);
        }
        None => {}
    }
}

/// The future is put back into its entry, where it has one.
fn put_into(table: &mut Places<(), u64>, seats: &Vec<Seat>, f: u64)
    requires { AreSeated seats.now.items table.old.entries }
    ensures seated { AreSeated seats.now.items table.new.entries }
    ensures futures { futures_of table.new.entries ≡ futures_of table.old.entries }
    ensures back { among f (present_of table.new.entries) ≡ among f (futures_of table.old.entries) }
    ensures others { (g : ℕ) → g ≢ f → among g (present_of table.new.entries) ≡ among g (present_of table.old.entries) }
    ensures rest { table.new ≡ record table.old { entries = table.new.entries } }
{
    match find(table, seats, f) {
        Some(place) => {
            table.put_back(place, ());
        }
        None => {}
    }
}

impl Entries {
    /// A table that no future has entered, for at most `limit` of them, which takes no memory.
    pub fn new(alloc: Global, limit: u64) -> Entries
        ensures table { result.table ≡ [] }
        ensures leaving { result.leaving ≡ [] }
        ensures present { result.present ≡ [] }
        ensures inside { result.inside ≡ [] }
        ensures limit { result.limit ≡ limit }
    {
        Entries {
            table: Places::new(alloc, limit as usize),
            leaving: Places::new(alloc, limit as usize),
            seats: Vec::new(alloc),
        }
    }

    /// Makes room for one more future. Where there is room it succeeds.
    pub fn reserve(&mut self) -> Result<(), AllocError>
        ensures table { self.new.table ≡ self.old.table }
        ensures leaving { self.new.leaving ≡ self.old.leaving }
        ensures inside { self.new.inside ≡ self.old.inside }
        ensures present { self.new.present ≡ self.old.present }
        ensures limit { self.new.limit ≡ self.old.limit }
        ensures next { self.new.next ≡ self.old.next }
        ensures room { OnOk result (self.new.has_room ≡ true) }
        ensures succeeds { self.old.has_room ≡ true → IsOk result }
    {
        self.seats.reserve(1)?;
        self.table.reserve()
    }

    /// How many futures may have an entry in the table.
    pub fn limit(&self) -> u64
        ensures { result ≡ self.now.limit }
    {
        self.table.limit() as u64
    }

    /// How many futures have an entry in the table.
    pub fn len(&self) -> usize
        ensures { result ≡ length self.now.table }
    {
        self.table.len()
    }

    /// The futures that have an entry are listed, in the order of acceptance, which is that of their numbers.
    pub fn list_to(&self, list: &mut VecDeque<u64>)
        requires room { deque_len list.old + length self.now.table ≤ deque_capacity list.old }
        ensures { list.new.items ≡ list.old.items ++ self.now.table }
    {
        for f in 0..self.seats.len() as u64 {
            if self.contains(f) {
                list.push_back_reserved(f);
            }
        }
    }

    /// Whether no future has an entry in the table.
    pub fn is_empty(&self) -> bool
        ensures { result ≡ (length self.now.table == 0) }
    {
        self.table.is_empty()
    }

    /// Whether nothing is left of what was taken out.
    pub fn has_none_leaving(&self) -> bool
        ensures { result ≡ (length self.now.leaving == 0) }
    {
        self.leaving.is_empty()
    }

    /// Room for one more future: first the limit is tested, and then room is made, which takes no memory where it is
    /// there. Either way the entries stay as they were.
    pub fn vacancy(&mut self) -> Result<Vacancy, SpawnRefused>
        ensures vacancy { IfOk result (λ v. IsVacancy v self.new) }
        ensures refused { IfErr result (IsRefusal self.old) }
        ensures rest { self.new ≡ record self.old { has_room = self.new.has_room } }
        ensures room { self.old.has_room ≡ true → self.new.has_room ≡ true }
    {
        let vacancy = self.table.vacancy()?;
        if self.seats.reserve(1).is_err() {
            vacancy.give_back();
            return Err(SpawnRefused::NoMemory);
        }
        Ok(vacancy)
    }

    /// The next future enters, at its vacancy. Takes no memory.
    pub fn enter(&mut self, vacancy: Vacancy, f: u64)
        requires next { f ≡ length self.old.inside }
        requires vacancy { IsVacancy vacancy self.old }
        ensures table { self.new.table ≡ self.old.table ++ f ∷ [] }
        ensures leaving { self.new.leaving ≡ self.old.leaving }
        ensures present { self.new.present ≡ self.old.present ++ f ∷ [] }
        ensures inside { self.new.inside ≡ self.old.inside ++ true ∷ [] }
        ensures limit { self.new.limit ≡ self.old.limit }
    {
        let place = vacancy.place();
        self.table.enter(vacancy, (), f);
        self.seats.push_reserved(Seat {
            place,
            inside: true,
        });
    }

    /// The future is taken out, to be polled or dropped.
    pub fn take(&mut self, f: u64)
        requires { f < length self.old.inside }
        ensures table { self.new.table ≡ self.old.table }
        ensures leaving { self.new.leaving ≡ self.old.leaving }
        ensures out { self.new.present ≡ without f self.old.present }
        ensures inside { self.new.inside ≡ slice_set self.old.inside f false }
        ensures limit { self.new.limit ≡ self.old.limit }
        ensures next { self.new.next ≡ self.old.next }
        ensures room { self.new.has_room ≡ self.old.has_room }
    {
        let place = f as usize;
        take_from(&mut self.table, &self.seats, f);
        self.seats[place].inside = false;
    }

    /// The future is put back.
    pub fn put_back(&mut self, f: u64)
        requires { f < length self.old.inside }
        ensures table { self.new.table ≡ self.old.table }
        ensures leaving { self.new.leaving ≡ self.old.leaving }
        ensures back { among f self.new.present ≡ among f self.old.table }
        ensures others { (g : ℕ) → g ≢ f → among g self.new.present ≡ among g self.old.present }
        ensures inside { self.new.inside ≡ slice_set self.old.inside f true }
        ensures limit { self.new.limit ≡ self.old.limit }
        ensures next { self.new.next ≡ self.old.next }
        ensures room { self.new.has_room ≡ self.old.has_room }
    {
        let place = f as usize;
        put_into(&mut self.table, &self.seats, f);
        self.seats[place].inside = true;
    }

    /// Whether this future has an entry in the table.
    pub fn contains(&self, f: u64) -> bool
        ensures { result ≡ among f self.now.table }
    {
        find(&self.table, &self.seats, f).is_some()
    }

    /// The future's entry goes. Answers whether it was there.
    pub fn leave(&mut self, f: u64) -> bool
        ensures was { result ≡ among f self.old.table }
        ensures left { result ≡ true → self.new.table ≡ without f self.old.table }
        ensures same { result ≡ false → self.new.table ≡ self.old.table }
        ensures leaving { self.new.leaving ≡ self.old.leaving }
        ensures present { self.new.present ≡ without f self.old.present }
        ensures inside { self.new.inside ≡ self.old.inside }
        ensures limit { self.new.limit ≡ self.old.limit }
        ensures room { self.old.has_room ≡ true → self.new.has_room ≡ true }
    {
        let place = match find(&self.table, &self.seats, f) {
            Some(place) => place,
            None => return false,
        };
        self.table.leave(place);
        true
    }

    /// All are taken out of the table.
    #[tactic(auto, using(crate::proofs::Cells::none_present))]
    pub fn take_out(&mut self)
        ensures table { self.new.table ≡ self.old.leaving }
        ensures leaving { self.new.leaving ≡ self.old.table }
        ensures present { self.old.leaving ≡ [] → self.new.present ≡ [] }
        ensures inside { self.new.inside ≡ self.old.inside }
        ensures limit { self.new.limit ≡ self.old.limit }
    {
        self.table.exchange(&mut self.leaving);
    }

    /// The first of those that were taken out goes, to be dropped, and is answered.
    pub fn leave_first(&mut self) -> Option<u64>
        ensures none { IfNone result
            ((self.old.leaving ≡ []) × (self.new.leaving ≡ []) × (self.new.inside ≡ self.old.inside)) }
        ensures some { IfSome result (λ f. self.old.leaving ≡ f ∷ self.new.leaving) }
        ensures inside { IfSome result (λ f. self.new.inside ≡ slice_set self.old.inside f false) }
        ensures table { self.new.table ≡ self.old.table }
        ensures present { self.new.present ≡ self.old.present }
        ensures limit { self.new.limit ≡ self.old.limit }
        ensures next { self.new.next ≡ self.old.next }
        ensures room { self.new.has_room ≡ self.old.has_room }
    {
        let (_, f) = match self.leaving.leave_first() {
            Some(parts) => parts,
            None => return None,
        };
        self.seats[f as usize].inside = false;
        Some(f)
    }
}
