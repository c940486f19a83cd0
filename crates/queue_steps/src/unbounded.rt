//! A chain of blocks for one owner.
ghost use Rattle.std.specs.Prelude.{◌≡◌, ◌<◌, List, [], ◌∷◌, ◌++◌, length, false, Some, None, IfOk, OnOk, IfErr};
ghost use Rattle.std.specs.Option.{ForSome};
ghost use Rattle.queue_steps.specs.Unbounded.{onto_last, LastHasRoom, FirstHasItem, FirstHasOneItem, TakesFirst};
ghost use Rattle.queue_steps.specs.ClosableQueue.{new_queue};

use crate::errors::{ForcePushError, PopError, PushError};
use crate::representation::Representation;
use crate::steps::unbounded::{self as steps, BLOCK, Ends, PopTurn, PushTurn};
use std::alloc::{AllocError, Global};
use std::collections::VecDeque;
use std::marker::Model;

/// A block: room for 31 items, which go in at its back and out at its front.
#[derive(Drop)]
pub struct Block<T> {
    items: VecDeque<T>,
}

impl<T> Model for Block<T> {
    ghost use Rattle.std.specs.Prelude.{List, ◌≤◌};
    ghost use Rattle.std.specs.VecDeque.{deque_capacity};

    ghost Value = { List T };

    ghost view = { λ b. b.items.items };

    ghost invariant = { λ b. 31 ≤ deque_capacity b.items };
}

impl<T> Block<T> {
    fn new(alloc: Global) -> Result<Block<T>, AllocError>
        ensures { IfOk result (λ b. b ≡ []) }
    {
        Ok(Block {
            items: VecDeque::with_capacity(alloc, BLOCK as usize)?,
        })
    }

    fn push(&mut self, value: T)
        requires { length self.old < 31 }
        ensures { self.new ≡ self.old ++ value ∷ [] }
    {
        self.items.push_back_reserved(value);
    }

    fn pop(&mut self) -> T
        requires { 0 < length self.old }
        ensures { self.old ≡ result ∷ self.new }
    {
        self.items.pop_front().unwrap()
    }

    // Gives the memory of an empty block back.
    fn free(self)
        requires { self ≡ [] }
    {
        let Block { items } = self;
        items.destroy_empty();
    }
}

/// The ends of a chain, its blocks, and a block that was used up, for the next link.
#[derive(Drop)]
pub struct Unbounded<T> {
    ends: Ends,
    blocks: VecDeque<Block<T>>,
    spare: Option<Block<T>>,
    alloc: Global,
}

impl<T> Model for Unbounded<T> {
    ghost use Rattle.queue_steps.specs.ClosableQueue.{ClosableQueue};

    ghost Value = { ClosableQueue T };

    ghost use Rattle.queue_steps.specs.Unbounded.{chain_queue, UnboundedAtRest};

    ghost view = { λ c. chain_queue c.ends c.blocks.items };

    ghost invariant = { λ c. UnboundedAtRest c.ends c.blocks.items c.spare };
}

fn push_onto_last<T>(blocks: &mut VecDeque<Block<T>>, value: T)
    requires { LastHasRoom blocks.old.items }
    ensures { blocks.new.items ≡ onto_last blocks.old.items value }
{
    let last = blocks.len() - 1;
    blocks[last].push(value);
}

// Links a block with this value at the end. An `Err` hands the value back, and the chain is as it was.
fn link<T>(
    blocks: &mut VecDeque<Block<T>>,
    spare: &mut Option<Block<T>>,
    alloc: Global,
    value: T,
) -> Result<(), T>
    requires { ForSome spare.old (λ b. b ≡ []) }
    ensures ok { OnOk result (blocks.new.items ≡ blocks.old.items ++ (value ∷ []) ∷ []) }
    ensures err { IfErr result (λ back. (back ≡ value) × (blocks.new.items ≡ blocks.old.items)) }
    ensures spare { ForSome spare.new (λ b. b ≡ []) }
{
    if blocks.reserve(1).is_err() {
        return Err(value);
    }
    let mut block = match spare.take() {
        Some(block) => block,
        None => match Block::new(alloc) {
            Ok(block) => block,
            Err(AllocError) => return Err(value),
        },
    };
    block.push(value);
    blocks.push_back_reserved(block);
    Ok(())
}

fn take_first<T>(blocks: &mut VecDeque<Block<T>>) -> T
    requires { FirstHasItem blocks.old.items }
    ensures { TakesFirst blocks.old.items result blocks.new.items }
{
    blocks[0].pop()
}

// Takes the only item of the first block, and unlinks the block, which is the spare one from then on.
fn unlink<T>(blocks: &mut VecDeque<Block<T>>, spare: &mut Option<Block<T>>) -> T
    requires one { FirstHasOneItem blocks.old.items }
    requires spare { ForSome spare.old (λ b. b ≡ []) }
    ensures item { blocks.old.items ≡ (result ∷ []) ∷ blocks.new.items }
    ensures spare { spare.new ≡ Some [] }
{
    let mut block = blocks.pop_front().unwrap();
    let item = block.pop();
    match spare.replace(block) {
        None => {}
        Some(earlier) => earlier.free(),
    }
    item
}

impl<T> Unbounded<T> {
    /// An empty chain, which has no block yet.
    pub fn new(alloc: Global) -> Unbounded<T>
        ensures { result ≡ new_queue None (Some 0) }
    {
        Unbounded {
            ends: Ends::NEW,
            blocks: VecDeque::new(alloc),
            spare: None,
            alloc,
        }
    }

    /// Gives the memory of an empty chain back.
    pub fn destroy_empty(self)
        requires { self.items ≡ [] }
    {
        let Unbounded {
            ends: _,
            mut blocks,
            spare,
            alloc: _,
        } = self;
        while let Some(block) = blocks.pop_front() {
            block.free();
        }
        blocks.destroy_empty();
        match spare {
            None => {}
            Some(block) => block.free(),
        }
    }
}

impl<T> Representation<T> for Unbounded<T> {
    ghost queue = { λ q. q };

    fn push(&mut self, value: T) -> Result<(), PushError<T>> {
        match steps::push(self.ends) {
            PushTurn::Append => {
                push_onto_last(&mut self.blocks, value);
                self.ends = self.ends.appended();
                Ok(())
            }
            PushTurn::Link => match link(&mut self.blocks, &mut self.spare, self.alloc, value) {
                Ok(()) => {
                    self.ends = self.ends.appended();
                    Ok(())
                }
                Err(value) => Err(PushError::NoMemory(value)),
            },
            PushTurn::Spend => {
                self.ends = self.ends.shut();
                Err(PushError::Closed(value))
            }
            PushTurn::Closed => Err(PushError::Closed(value)),
        }
    }

    fn force_push(&mut self, value: T) -> Result<Option<T>, ForcePushError<T>> {
        let _ends = &self.ends;
        match self.push(value) {
            Ok(()) => Ok(None),
            Err(PushError::Closed(value)) => Err(ForcePushError::Closed(value)),
            Err(PushError::NoMemory(value)) => Err(ForcePushError::NoMemory(value)),
            Err(PushError::Full(_value)) => unreachable!(),
        }
    }

    fn pop(&mut self) -> Result<T, PopError> {
        let item = match steps::pop(self.ends) {
            PopTurn::Take => take_first(&mut self.blocks),
            PopTurn::Unlink => unlink(&mut self.blocks, &mut self.spare),
            PopTurn::Empty => return Err(PopError::Empty),
            PopTurn::Closed => return Err(PopError::Closed),
        };
        self.ends = self.ends.taken();
        Ok(item)
    }

    fn close(&mut self) -> bool {
        let first = steps::close(self.ends);
        self.ends = self.ends.shut();
        first
    }

    fn len(&self) -> usize {
        steps::len(self.ends) as usize
    }

    fn is_empty(&self) -> bool {
        steps::is_empty(self.ends)
    }

    fn is_full(&self) -> bool {
        let _ends = &self.ends;
        false
    }

    fn is_closed(&self) -> bool {
        self.ends.closed
    }

    fn capacity(&self) -> Option<usize>
        ensures capacity { result ≡ self.now.capacity }
        ensures unbounded { result ≡ None }
    {
        let _ends = &self.ends;
        None
    }
}
