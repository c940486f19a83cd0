//! The places of a slot or a ring that was taken apart.
ghost use Rattle.std.specs.Prelude.{◌≡◌, ◌+◌, ◌<◌, ◌++◌, [], None, option_to_list};
ghost use Rattle.std.specs.Mem.Slots.{slots_items, slots_filled, slots_len, IsFull};
ghost use Rattle.concurrent_queue.specs.Places.{AreLeft, items_from, GivesFirst};

use atomic_table::Closed;
use std::alloc::Global;
use std::marker::Model;

/// The places, of which this many from `at` on were not looked at yet.
pub struct Places<T> {
    closed: Closed<Option<T>, Global>,
    at: usize,
    left: usize,
}

impl<T> Model for Places<T> {
    ghost use Rattle.std.specs.Prelude.{List};
    ghost use Rattle.std.specs.Mem.Slots.{slots_items, slots_filled, slots_len};
    ghost use Rattle.concurrent_queue.specs.Places.{AreLeft, items_from};

    ghost Value = { List T };

    ghost view = { λ p. items_from (slots_items p.closed.slots) (slots_len p.closed.slots) p.at p.left };

    ghost invariant = { λ p. AreLeft (slots_filled p.closed.slots) p.at p.left };
}

// Takes what is in the place `at`, and goes on to the next one.
fn take_here<T>(
    closed: &mut Closed<Option<T>, Global>,
    at: &mut usize,
    left: &mut usize,
) -> Option<T>
    requires places { AreLeft (slots_filled closed.old.slots) at.old left.old }
    requires some { 0 < left.old }
    ensures places { AreLeft (slots_filled closed.new.slots) at.new left.new }
    ensures one { left.new + 1 ≡ left.old }
    ensures items { items_from (slots_items closed.old.slots) (slots_len closed.old.slots) at.old left.old ≡ option_to_list result
        ++ items_from (slots_items closed.new.slots) (slots_len closed.new.slots) at.new left.new }
{
    let place = *at;
    *at = if place + 1 == closed.slot_count() {
        0
    } else {
        place + 1
    };
    *left -= 1;
    closed.take(place)
}

// Goes on to the next place that has an item, and takes it out.
fn take_next<T>(
    closed: &mut Closed<Option<T>, Global>,
    at: &mut usize,
    left: &mut usize,
) -> Option<T>
    requires { AreLeft (slots_filled closed.old.slots) at.old left.old }
    ensures places { AreLeft (slots_filled closed.new.slots) at.new left.new }
    ensures first { GivesFirst (items_from (slots_items closed.old.slots) (slots_len closed.old.slots) at.old left.old) result
        (items_from (slots_items closed.new.slots) (slots_len closed.new.slots) at.new left.new) }
    ensures none { result ≡ None → left.new ≡ 0 }
{
    while *left > 0 {
        match take_here(closed, at, left) {
            Some(item) => return Some(item),
            None => {}
        }
    }
    None
}

impl<T> Places<T> {
    /// All places, from this one on.
    pub fn new(closed: Closed<Option<T>, Global>, at: usize) -> Places<T>
        requires full { IsFull closed.slots }
        requires inside { at < slots_len closed.slots }
    {
        let left = closed.slot_count();
        Places { closed, at, left }
    }

    /// Takes out the first item that is left.
    pub fn next(&mut self) -> Option<T>
        ensures { GivesFirst self.old result self.new }
    {
        take_next(&mut self.closed, &mut self.at, &mut self.left)
    }

    /// Gives the memory back, once no item is left.
    pub fn destroy_empty(self)
        requires { self ≡ [] }
    {
        let Places {
            mut closed,
            mut at,
            mut left,
        } = self;
        match take_next(&mut closed, &mut at, &mut left) {
            None => closed.free(),
            Some(_) => unreachable!(),
        }
    }
}

impl<T: Drop> Drop for Places<T> {
    fn drop(self) {
        let Places {
            mut closed,
            mut at,
            mut left,
        } = self;
        while left > 0 {
            drop(take_here(&mut closed, &mut at, &mut left));
        }
        closed.free();
    }
}
