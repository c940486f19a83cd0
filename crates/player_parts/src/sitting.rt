//! The commands of a script on its executor, and on the ticks and runs of that.
use crate::answer::Answer;
use crate::desk::{Desk, Plan};
use crate::handle::Hold;
use crate::outside::Bell;
use crate::own::Own;
use crate::player::{Named, Player, put};
use crate::shelf::Keep;
use executor_parts::Mark;
use script::{Item, Name, Plain};
use std::alloc::Global;
use std::collections::BTreeMap;
use std::rc::Rc;

/// The ticks and runs of a script.
#[derive(Drop)]
pub struct Seats<T: Drop, N: Drop> {
    ticks: Named<T>,
    runs: Named<N>,
}

impl<T: Drop, N: Drop> Seats<T, N> {
    /// None yet.
    pub fn new(alloc: Global) -> Seats<T, N> {
        Seats {
            ticks: BTreeMap::new(alloc),
            runs: BTreeMap::new(alloc),
        }
    }

    /// Whether each tick and run is dropped.
    pub fn are_free(&self) -> bool {
        self.ticks.is_empty() & self.runs.is_empty()
    }
}

impl<H: Hold, K: Keep> Player<H, K> {
    /// Makes the call of a command.
    pub fn call<D: Desk<H, T, N>, T: Drop, N: Drop>(
        &mut self,
        desk: &D,
        seats: &mut Seats<T, N>,
        plain: &Plain,
    ) -> Answer {
        match plain {
            Plain::Spawn { mark, name, items } => self.spawn::<D, T, N>(
                desk,
                *mark,
                *name,
                items.as_slice(),
            ),
            Plain::Try => Answer::of(desk.try_tick()),
            Plain::Empty => Answer::of(desk.is_empty()),
            Plain::Tick(name) => self.make_tick::<D, T, N>(desk, &mut seats.ticks, *name),
            Plain::Run { name, twice } => self.make_run::<D, T, N>(
                desk,
                &mut seats.runs,
                *name,
                *twice,
            ),
            Plain::PollTick(name) => self.poll_tick::<D, T, N>(desk, &mut seats.ticks, *name),
            Plain::DropTick(name) => drop_seat(&mut seats.ticks, *name),
            Plain::PollRun(name) => self.poll_run::<D, T, N>(desk, &mut seats.runs, *name),
            Plain::DropRun(name) => drop_seat(&mut seats.runs, *name),
            plain => self.call_on_handle(plain),
        }
    }

    /// Spawns a future of this name, where that is free and the handles are there that the items name.
    fn spawn<D, T, N>(&mut self, desk: &D, mark: Mark, name: Name, items: &[Item]) -> Answer
    where
        D: Desk<H, T, N>,
        T: Drop,
        N: Drop,
    {
        if self.knows(name) || !self.has_handles(items) {
            return Answer::NotPossible;
        }
        if !self.stage.is_full() && self.stage.asking.is_refused() {
            return Answer::NoMemory;
        }
        let Ok(own_items) = Vec::from_slice(self.alloc, items) else {
            return Answer::NoMemory;
        };
        let Ok(handles) = Rc::clone(&self.handles) else {
            return Answer::NoMemory;
        };
        let held = self.take_handles(items);
        match desk.spawn(Plan {
            name,
            mark,
            items: own_items,
            held,
            handles,
        }) {
            Ok(handle) => {
                self.stage.count_one();
                self.learn(name);
                self.put_handle(name, handle);
                Answer::Made
            }
            Err(refused) => {
                self.put_all(refused.held);
                refused.answer
            }
        }
    }

    fn make_tick<D: Desk<H, T, N>, T: Drop, N: Drop>(
        &mut self,
        desk: &D,
        ticks: &mut Named<T>,
        name: Name,
    ) -> Answer {
        if self.knows(name) {
            return Answer::NotPossible;
        }
        if self.stage.asking.is_refused() {
            return Answer::NoMemory;
        }
        match desk.tick() {
            Some(tick) => self.sit(ticks, name, tick),
            None => Answer::NoMemory,
        }
    }

    fn sit<S: Drop>(&mut self, seats: &mut Named<S>, name: Name, seat: S) -> Answer {
        self.learn(name);
        put(seats, name, seat, &self.stage);
        Answer::Made
    }

    /// Makes a run, whose own future holds the handle of this name, if any.
    fn make_run<D: Desk<H, T, N>, T: Drop, N: Drop>(
        &mut self,
        desk: &D,
        runs: &mut Named<N>,
        name: Name,
        twice: Option<Name>,
    ) -> Answer {
        if self.knows(name) {
            return Answer::NotPossible;
        }
        match twice {
            Some(twice) if !self.has_handle(twice) => Answer::NotPossible,
            // Its room, and its place in the list of the runs' queues.
            _ if self.stage.asking.is_refused() || self.stage.asking.is_refused() => {
                Answer::NoMemory
            }
            Some(twice) => {
                let held = self.take_held(twice);
                self.hand_over::<D, T, N>(desk, runs, name, Own { twice: held })
            }
            None => self.hand_over::<D, T, N>(desk, runs, name, Own { twice: None }),
        }
    }

    fn hand_over<D: Desk<H, T, N>, T: Drop, N: Drop>(
        &mut self,
        desk: &D,
        runs: &mut Named<N>,
        name: Name,
        own: Own<H>,
    ) -> Answer {
        match desk.run(own) {
            Ok(run) => self.sit(runs, name, run),
            Err(own) => {
                let Own { twice } = own;
                if let Some(held) = twice {
                    self.put_held(held);
                }
                Answer::NoMemory
            }
        }
    }

    /// Polls a tick by the outside waker of its name.
    fn poll_tick<D, T: Drop, N: Drop>(&self, desk: &D, ticks: &mut Named<T>, name: Name) -> Answer
    where
        D: Desk<H, T, N>,
    {
        match ticks.remove(&name) {
            Some(tick) => {
                let mut tick = tick;
                let answer = desk.poll_tick(&mut tick, Bell::of(name, &self.stage));
                put(ticks, name, tick, &self.stage);
                answer
            }
            None => Answer::NotPossible,
        }
    }

    /// Polls a run by the outside waker of its name.
    fn poll_run<D, T: Drop, N: Drop>(&self, desk: &D, runs: &mut Named<N>, name: Name) -> Answer
    where
        D: Desk<H, T, N>,
    {
        match runs.remove(&name) {
            Some(run) => {
                let mut run = run;
                let answer = desk.poll_run(&mut run, Bell::of(name, &self.stage));
                put(runs, name, run, &self.stage);
                answer
            }
            None => Answer::NotPossible,
        }
    }
}

/// Drops a tick or run.
fn drop_seat<S: Drop>(seats: &mut Named<S>, name: Name) -> Answer {
    match seats.remove(&name) {
        Some(seat) => {
            drop(seat);
            Answer::Done
        }
        None => Answer::NotPossible,
    }
}
