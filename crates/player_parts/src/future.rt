//! The futures that a script spawns.
use crate::answer::Answer;
use crate::desk::{Plan, Refused};
use crate::handle::{Await, Held, Hold, doubled};
use crate::handles::SharedHandles;
use crate::outside::{Bell, Gift};
use crate::shelf::{SharedShelf, Shelf};
use async_task::{Future, Poll, Wake};
use script::{Item, Name};
use std::rc::Rc;

/// What is kept of the wakers `W`.
pub trait KeptOf<W>: Drop {
    /// A copy of this waker, where one can be had and is a task's.
    fn kept_of(waker: &W) -> Option<Self>;

    /// Keeps none of the future of this name, in place of the one that was kept before, which goes.
    fn keep_none(shelf: &Shelf<Self>, name: Name);
}

/// A future that does one item at each poll, the last at all later ones. Its polls and its drop are shown.
pub struct Scripted<H: Drop, S: Drop> {
    pub name: Name,
    pub items: Vec<Item>,
    /// The place of the item of its next poll.
    pub next: usize,
    /// The handles that its items name, each once, in the order of the items.
    pub held: Vec<Held<H>>,
    /// The handles that it may drop.
    pub handles: SharedHandles<H>,
    /// Where its wakers are kept.
    pub shelf: SharedShelf<S>,
}

impl<H: Drop, S: Drop> Drop for Scripted<H, S> {
    fn drop(self) {
        let Scripted {
            name,
            items,
            next: _,
            held,
            handles,
            shelf,
        } = self;
        drop(items);
        shelf.stage.count_out();
        shelf.stage.show_on(b"drop", name);
        drop(held);
        drop(handles);
    }
}

impl<H: Hold + Await<W>, S: KeptOf<W>, W: Wake> Future<W> for Scripted<H, S> {
    type Output = Gift;

    fn poll(&mut self, waker: &W) -> Poll<Gift> {
        self.shelf.stage.show_on(b"poll", self.name);
        match self.do_next(waker) {
            Some(number) => {
                self.shelf.stage.show_on(b"ready", self.name);
                Poll::Ready(Gift::of(self.name, number, &self.shelf.stage))
            }
            None => {
                self.shelf.stage.show_on(b"pending", self.name);
                Poll::Pending
            }
        }
    }
}

impl<H: Drop, S: Drop> Scripted<H, S> {
    /// The handles that it holds, where it was refused: its drop isn't shown.
    pub fn into_held(self) -> Vec<Held<H>> {
        let Scripted {
            name: _,
            items,
            next: _,
            held,
            handles,
            shelf,
        } = self;
        drop(items);
        drop(handles);
        drop(shelf);
        held
    }

    /// Whether its next poll runs another future.
    pub fn nests(&self) -> bool {
        match self.items.get(self.next) {
            Some(Item::Nest) => true,
            _ => false,
        }
    }

    /// Begins such a poll.
    pub fn begin_nest(&mut self) {
        self.shelf.stage.show_on(b"poll", self.name);
        let _ = self.take_item();
    }

    /// Ends such a poll. What was run since it began was run in it.
    pub fn end_nest(&self) {
        self.shelf.stage.show_on(b"pending", self.name);
    }

    /// Does its next item, and gives the output where that is ready.
    fn do_next<W: Wake>(&mut self, waker: &W) -> Option<u64>
    where
        H: Hold + Await<W>,
        S: KeptOf<W>,
    {
        match self.take_item() {
            Item::Pend => None,
            Item::WakeSelf => {
                waker.wake_by_ref();
                None
            }
            Item::Keep => {
                self.keep(waker);
                None
            }
            Item::Ready(number) => Some(number),
            Item::Twice(name) => self.poll_held(name, waker),
            Item::Stop(name) => {
                drop(self.handles.take(name));
                None
            }
            // Who plays it begins such a poll and ends it.
            Item::Nest => None,
        }
    }

    /// The item of this poll. The next poll has the one after it, where there is one.
    fn take_item(&mut self) -> Item {
        let item = match self.items.get(self.next) {
            Some(item) => *item,
            None => Item::Pend,
        };
        if self.next < self.items.len().saturating_sub(1) {
            self.next += 1;
        }
        item
    }

    /// Has a copy of the waker kept, in place of the one that was kept before, which goes. Refused the copy, none is kept.
    fn keep<W>(&self, waker: &W)
    where
        S: KeptOf<W>,
    {
        if self.shelf.stage.asking.is_refused() {
            S::keep_none(&self.shelf, self.name);
        } else if let Some(kept) = S::kept_of(waker) {
            self.shelf.keep(self.name, kept);
        }
    }

    /// Polls the handle of this name. Where a request of the command may be refused, a waker that can't be copied tells first
    /// whether the poll would make one.
    fn poll_held<W>(&mut self, name: Name, waker: &W) -> Option<u64>
    where
        H: Hold + Await<W>,
    {
        let asking = &self.shelf.stage.asking;
        for held in self.held.iter_mut() {
            if held.name == name {
                if asking.may_refuse() {
                    match held.handle.poll_by(Bell::without_copies(name)) {
                        Answer::NoMemory if asking.is_refused() => return None,
                        Answer::NoMemory => {}
                        answer => return doubled(answer),
                    }
                }
                return doubled(held.handle.poll(waker));
            }
        }
        None
    }
}

/// A future, as it is planned. Its wakers are kept on this shelf.
pub fn future_of<H: Drop, S: Drop>(
    shelf: &SharedShelf<S>,
    plan: Plan<H>,
) -> Result<Scripted<H, S>, Refused<H>> {
    let Plan {
        name,
        mark: _,
        items,
        held,
        handles,
    } = plan;
    match Rc::clone(shelf) {
        Ok(shelf) => Ok(Scripted {
            name,
            items,
            next: 0,
            held,
            handles,
            shelf,
        }),
        Err(_) => Err(Refused {
            answer: Answer::NoMemory,
            held,
        }),
    }
}
