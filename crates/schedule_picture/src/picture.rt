//! What is drawn of a trace, as data.

ghost use Rattle.std.specs.Prelude.{◌≡◌, ◌<◌, ◌≤◌, ◌+◌, [], ◌∷◌, ◌++◌, Contains, IfOk, OnOk, length};
ghost use Rattle.simulator.specs.ScriptText.{happened};
ghost use Rattle.schedule_picture.specs.Picture.{AllHaveLanes, events_of};

use executor_model::{Event, Polled, Waker};
use simulator::{Moment, Outcome};
use std::alloc::{AllocError, Global};

/// Who has a lane. The lesser is drawn above the greater.
#[derive(Clone, Copy, Debug, PartialEq, Eq, PartialOrd, Ord)]
pub enum Lane {
    Party(u32),
    Future(u64),
    /// The outside waker that a poll of this future's handle was given, and that was called.
    Awaiter(u64),
    Tick(u64),
    Run(u64),
}

/// What is drawn of one event.
#[derive(Clone, Copy, Debug)]
pub struct Shape {
    pub event: Event,
    /// Who did it.
    pub party: u32,
    /// To whom; the party itself, if to nobody who has a lane.
    pub lane: Lane,
    /// In how many calls of the party. A call's begin and end are outside of it.
    pub depth: usize,
    /// The output that the call gave, if this is the end of a command.
    pub output: Option<u64>,
}

/// A shape for each event of a trace, in order, who has a lane, and the greatest depth.
#[derive(Drop)]
pub struct Picture {
    pub shapes: Vec<Shape>,
    pub lanes: Vec<Lane>,
    pub deepest: usize,
}

/// Who did it, and to whom.
fn who(event: Event) -> (u32, Lane) {
    match event {
        Event::CallBegun { party, .. }
        | Event::CallEnded { party, .. }
        | Event::Looked { party, .. }
        | Event::DropBegun { party }
        | Event::DropEnded { party } => (party, Lane::Party(party)),
        Event::Accepted { party, future }
        | Event::PollBegun { party, future }
        | Event::Answered { party, future, .. }
        | Event::Woken { party, future }
        | Event::Cancelled { party, future }
        | Event::Detached { party, future }
        | Event::LastWaker { party, future }
        | Event::Leaked { party, future }
        | Event::Dropped { party, future }
        | Event::OutputDropped { party, future }
        | Event::OutputGiven { party, future }
        | Event::HandlePolled { party, future }
        | Event::Kept { party, future, .. } => (party, Lane::Future(future)),
        Event::TickPolled { party, tick } | Event::TickDropped { party, tick } => (
            party,
            Lane::Tick(tick),
        ),
        Event::RunPolled { party, run } | Event::RunDropped { party, run } => (
            party,
            Lane::Run(run),
        ),
        Event::WakerCalled {
            party,
            polled,
            waker,
            ..
        } => (party, called(polled, waker)),
    }
}

/// Who is called by the waker that a poll was given.
fn called(polled: Polled, waker: Waker) -> Lane {
    match (waker, polled) {
        (Waker::Task(future), _) => Lane::Future(future),
        (Waker::Outside(_), Polled::Handle(future)) => Lane::Awaiter(future),
        (Waker::Outside(_), Polled::Tick(tick)) => Lane::Tick(tick),
        (Waker::Outside(_), Polled::Run(run)) => Lane::Run(run),
    }
}

/// The output that the moment at this place says, if it is the end of a command.
fn output_at(moments: &[Moment], place: usize) -> Option<u64> {
    match moments.get(place)? {
        Moment::Ended {
            outcome: Outcome::Output(value),
            ..
        } => Some(*value),
        _ => None,
    }
}

impl Shape {
    /// It ends the call, poll, life of a future or drop of the executor that the other begins.
    fn is_end_of(&self, begun: &Shape) -> bool {
        match (begun.event, self.event) {
            (Event::CallBegun { .. }, Event::CallEnded { .. }) => {
                begun.party == self.party && begun.depth == self.depth
            }
            (Event::PollBegun { .. }, Event::Answered { .. }) => begun.lane == self.lane,
            (Event::Accepted { .. }, Event::Dropped { .. }) => begun.lane == self.lane,
            (Event::DropBegun { .. }, Event::DropEnded { .. }) => true,
            _ => false,
        }
    }
}

impl Picture {
    /// The picture of what these moments show. Takes memory, and ends early only for want of it.
    pub fn of(alloc: Global, moments: &[Moment]) -> Result<Picture, AllocError>
        // Each event has its shape, in order, and no other is there.
        ensures events { IfOk result (λ picture. events_of picture.shapes.items ≡ happened moments.now) }
        ensures lanes { IfOk result (λ picture. AllHaveLanes picture.lanes.items picture.shapes.items) }
    {
        let mut picture = Picture {
            shapes: Vec::new(alloc),
            lanes: Vec::new(alloc),
            deepest: 0,
        };
        for (place, moment) in moments.iter().enumerate() {
            picture.show(*moment, output_at(moments, place.saturating_add(1)))?;
        }
        Ok(picture)
    }

    /// A shape for what a moment shows, with the output that the next one says.
    fn show(&mut self, moment: Moment, output: Option<u64>) -> Result<(), AllocError>
        requires { AllHaveLanes self.old.lanes.items self.old.shapes.items }
        ensures events { OnOk result
            (events_of self.new.shapes.items ≡ events_of self.old.shapes.items ++ happened (moment ∷ [])) }
        ensures lanes { OnOk result (AllHaveLanes self.new.lanes.items self.new.shapes.items) }
    {
        match moment {
            Moment::Happened(event) => self.push(event, output),
            Moment::Ended { .. } | Moment::Stopped => Ok(()),
        }
    }

    /// The place of the event that ends what begins at this one; behind the last, if none does.
    pub fn end_of(&self, place: usize) -> usize
        ensures later { place < length self.now.shapes.items → place < result }
        ensures within { place < length self.now.shapes.items → result ≤ length self.now.shapes.items }
    {
        let Some(begun) = self.shapes.get(place) else {
            return place;
        };
        let behind = self.behind(place);
        let ended = behind.iter().position(|shape| shape.is_end_of(begun));
        ended.unwrap_or(behind.len()) + place + 1
    }

    /// The future that the party of this place says at its next event that it accepts or wakes.
    pub fn met_behind(&self, place: usize) -> Option<Lane> {
        let party = self.shapes.get(place)?.party;
        let next = self
            .behind(place)
            .iter()
            .find(|shape| shape.party == party)?;
        match next.event {
            Event::Accepted { .. } | Event::Woken { .. } => Some(next.lane),
            _ => None,
        }
    }

    /// The shapes behind this place.
    fn behind(&self, place: usize) -> &[Shape]
        ensures { place < length self.now.shapes.items → length result.now + place + 1 ≡ length self.now.shapes.items }
    {
        if place < self.shapes.len() {
            &self.shapes[place + 1..]
        } else {
            &[]
        }
    }

    /// One more event.
    fn push(&mut self, event: Event, output: Option<u64>) -> Result<(), AllocError>
        requires { AllHaveLanes self.old.lanes.items self.old.shapes.items }
        ensures events { OnOk result (events_of self.new.shapes.items ≡ events_of self.old.shapes.items ++ event ∷ []) }
        ensures lanes { OnOk result (AllHaveLanes self.new.lanes.items self.new.shapes.items) }
    {
        let (party, lane) = who(event);
        let depth = self.depth_of(party, event);
        self.deepest = self.deepest.max(depth);
        self.need(Lane::Party(party))?;
        self.need(lane)?;
        self.shapes.push(Shape {
            event,
            party,
            lane,
            depth,
            output,
        })?;
        Ok(())
    }

    /// In how many calls the party is at the next event.
    fn depth_of(&self, party: u32, event: Event) -> usize {
        let Some(last) = self.shapes.iter().rfind(|shape| shape.party == party) else {
            return 0;
        };
        let begun = matches!(last.event, Event::CallBegun { .. }) as usize;
        let ended = matches!(event, Event::CallEnded { .. }) as usize;
        last.depth.saturating_add(begun).saturating_sub(ended)
    }

    /// Who it is has a lane.
    fn need(&mut self, lane: Lane) -> Result<(), AllocError>
        ensures there { OnOk result (Contains self.new.lanes.items lane) }
        ensures kept { (other : Lane) → Contains self.old.lanes.items other → Contains self.new.lanes.items other }
        ensures shapes { self.new.shapes.items ≡ self.old.shapes.items }
    {
        if !self.lanes.contains(&lane) {
            self.lanes.push(lane)?;
        }
        Ok(())
    }
}
