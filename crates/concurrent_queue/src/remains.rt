//! What a queue still held when its owner took it apart.
ghost use Rattle.std.specs.Prelude.{◌≡◌, []};
ghost use Rattle.concurrent_queue.specs.Places.{GivesFirst};

use crate::places::Places;
use queue_steps::{Representation, Unbounded as Chain};
use std::marker::Model;

/// The items that were left in a `ConcurrentQueue`, oldest first, with its memory.
///
/// Its drop drops the items that `next` has not given. Where items have no drop, `destroy_empty` ends it once `next` has
/// given them all.
#[derive(Drop)]
pub struct Remains<T> {
    kept: Left<T>,
}

#[derive(Drop)]
enum Left<T> {
    Places(Places<T>),
    Chain(Chain<T>),
}

impl<T> Model for Remains<T> {
    ghost use Rattle.std.specs.Prelude.{List};

    ghost Value = { List T };

    ghost use Rattle.concurrent_queue.specs.Remains.{left_items};

    ghost view = { λ r. left_items r.kept };
}

impl<T> Remains<T> {
    pub(crate) fn of_places(places: Places<T>) -> Remains<T>
        ensures { result ≡ places }
    {
        Remains {
            kept: Left::Places(places),
        }
    }

    pub(crate) fn of_chain(chain: Chain<T>) -> Remains<T>
        ensures { result ≡ chain.items }
    {
        Remains {
            kept: Left::Chain(chain),
        }
    }

    /// Takes out the first item that is left.
    pub fn next(&mut self) -> Option<T>
        ensures { GivesFirst self.old result self.new }
    {
        match &mut self.kept {
            Left::Places(places) => places.next(),
            Left::Chain(chain) => match chain.pop() {
                Ok(item) => Some(item),
                Err(_) => None,
            },
        }
    }

    /// Gives the memory back, once no item is left.
    pub fn destroy_empty(self)
        requires { self ≡ [] }
    {
        match self.kept {
            Left::Places(places) => places.destroy_empty(),
            Left::Chain(chain) => chain.destroy_empty(),
        }
    }
}
