//! The order in which keys came.
ghost use Rattle.std.specs.Prelude.{◌≡◌, ◌≢◌, ℕ, ◌+◌, ◌<◌, ◌≤◌, ◌++◌, [], ◌∷◌, OnOk, IsOk, slice_get, vec_len, vec_capacity};
ghost use Rattle.executor_parts.specs.Order.{IsIn, without, next_of, previous_of, Skips, Inserts};

use std::alloc::{AllocError, Global};
use std::marker::Model;

/// Keys in the order in which they came. A key comes last, and leaves from wherever it is, each by a few links.
#[derive(Drop)]
pub struct Order {
    // The link of a key is at `key + 1`, and the ring goes through the link at 0.
    links: Vec<Link>,
    len: usize,
}

#[derive(Clone, Copy)]
struct Link {
    previous: usize,
    next: usize,
}

impl Model for Order {
    ghost use Rattle.std.specs.Prelude.{length, ◌-◌};
    ghost use Rattle.executor_parts.specs.Order.{Order, keys_of, IsRing};

    ghost Value = { Order };

    ghost view = { λ o. record { keys = keys_of o.links.items o.len; room = length o.links.items - 1 } };

    ghost invariant = { λ o. IsRing o.links.items (keys_of o.links.items o.len) };
}

/// The links are as before, but there are at least so many.
fn pad(links: &mut Vec<Link>, len: usize)
    requires { len ≤ vec_capacity links.old }
    ensures long { len ≤ vec_len links.new }
    ensures longer { vec_len links.old ≤ vec_len links.new }
    ensures nexts { (at : ℕ) → next_of links.new.items at ≡ next_of links.old.items at }
    ensures previouses { (at : ℕ) → previous_of links.new.items at ≡ previous_of links.old.items at }
{
    for _place in links.len()..len {
        links.push_reserved(Link {
            previous: 0,
            next: 0,
        });
    }
}

/// Joins the two neighbours of this place.
fn skip(links: &mut Vec<Link>, at: usize)
    requires here { at < vec_len links.old }
    requires previous { previous_of links.old.items at < vec_len links.old }
    requires next { next_of links.old.items at < vec_len links.old }
    ensures skips { Skips links.old.items links.new.items at }
    ensures len { vec_len links.new ≡ vec_len links.old }
{
    let Link { previous, next } = links[at];
    links[previous].next = next;
    links[next].previous = previous;
}

/// Puts this place last, just before place 0.
fn insert(links: &mut Vec<Link>, at: usize)
    requires here { at < vec_len links.old }
    requires last { previous_of links.old.items 0 < vec_len links.old }
    requires first { at ≢ 0 }
    requires new { at ≢ previous_of links.old.items 0 }
    ensures inserts { Inserts links.old.items links.new.items at }
    ensures len { vec_len links.new ≡ vec_len links.old }
{
    let previous = links[0].previous;
    links[at] = Link { previous, next: 0 };
    links[previous].next = at;
    links[0].previous = at;
}

impl Order {
    /// An order of no keys, which takes no memory.
    pub fn new(alloc: Global) -> Order
        ensures { result.keys ≡ [] }
    {
        Order {
            links: Vec::new(alloc),
            len: 0,
        }
    }

    /// Makes room for this key, and those below it. Where there is room it succeeds.
    pub fn reserve_to(&mut self, key: usize) -> Result<(), AllocError>
        ensures keys { self.new.keys ≡ self.old.keys }
        ensures room { OnOk result (key < self.new.room) }
        ensures grows { self.old.room ≤ self.new.room }
        ensures succeeds { key < self.old.room → IsOk result }
    {
        let had = self.links.len();
        if key >= usize::MAX - 1 {
            return Err(AllocError);
        }
        let len = key + 2;
        if len > had {
            self.links.reserve(len - had)?;
            pad(&mut self.links, len);
        }
        Ok(())
    }

    /// The key that came first of those that are there.
    pub fn first(&self) -> Option<usize>
        ensures { result ≡ slice_get self.now.keys 0 }
    {
        if self.len == 0 {
            None
        } else {
            Some(self.links[0].next - 1)
        }
    }

    /// A key comes that isn't there.
    pub fn push(&mut self, key: usize)
        requires new { ¬ IsIn key self.old.keys }
        requires room { key < self.old.room }
        ensures keys { self.new.keys ≡ self.old.keys ++ key ∷ [] }
        ensures room { self.new.room ≡ self.old.room }
    {
        insert(&mut self.links, key + 1);
        self.len += 1;
    }

    /// A key leaves that is there.
    pub fn remove(&mut self, key: usize)
        requires { IsIn key self.old.keys }
        ensures keys { self.new.keys ≡ without key self.old.keys }
        ensures room { self.new.room ≡ self.old.room }
        ensures within { key < self.new.room }
    {
        skip(&mut self.links, key + 1);
        self.len -= 1;
    }
}
