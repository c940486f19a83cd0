//! Where a picture's shapes are drawn, in pixels: a lane below another, and a column for each event.

use crate::names::Namer;
use crate::picture::{Lane, Picture, Shape};
use crate::svg::{BAR, Svg};
use executor_model::{Answer, Event};
use simulator::play::Played;
use std::alloc::{AllocError, Global};

/// How high a row is: a party's lane has one for each depth of calls and one for answers, any other has two.
const ROW: u64 = 18;

/// Where the first column begins.
const LEFT: u64 = 96;

/// About how wide a letter is.
const LETTER: u64 = 5;

/// How wide the legend is.
const LEGEND: u64 = 700;

// What marks look like, from their point on.
const ARROW: &str = "v-14v14l-5 -9h10z";

const OPEN_ARROW: &str = "v-14m-6 6l6 8l6 -8";

const CROSS: &str = "m-5 -5l10 10m0 -10l-10 10";

const DIAMOND: &str = "m0 -6l6 6l-6 6l-6 -6z";

const DOT: &str = "h0";

/// The SVG of a picture, with the names of what was played. Takes memory.
pub fn draw(alloc: Global, picture: &Picture, played: &Played) -> Result<String, AllocError> {
    let mut drawing = Drawing::new(alloc, picture, played)?;
    // What is behind comes first.
    for (place, shape) in picture.shapes.iter().enumerate() {
        drawing.draw_band(place, shape)?;
    }
    for lane in &picture.lanes {
        drawing.draw_lane(*lane)?;
    }
    for (place, shape) in picture.shapes.iter().enumerate() {
        drawing.draw_lines(place, shape)?;
    }
    for (place, shape) in picture.shapes.iter().enumerate() {
        drawing.draw_bar(place, shape)?;
    }
    for (place, shape) in picture.shapes.iter().enumerate() {
        drawing.draw_mark(place, shape)?;
    }
    drawing.draw_legend()?;
    drawing.svg.end()
}

/// What is drawn, and what is drawn of it so far.
#[derive(Drop)]
struct Drawing<'a> {
    picture: &'a Picture,
    namer: Namer<'a>,
    /// How wide a column is.
    column: u64,
    svg: Svg,
}

/// The lower end of the lanes above this one, or of all.
fn bottom(picture: &Picture, lane: Option<Lane>) -> u64 {
    let calls = (picture.deepest as u64).saturating_add(2);
    let mut rows = 1u64;
    for above in &picture.lanes {
        if lane.is_none_or(|lane| *above < lane) {
            rows = rows.saturating_add(match above {
                Lane::Party(_) => calls,
                _ => 2,
            });
        }
    }
    rows.saturating_mul(ROW)
}

impl<'a> Drawing<'a> {
    fn new(alloc: Global, picture: &'a Picture, played: &'a Played) -> Result<Self, AllocError> {
        let columns = picture.shapes.len() as u64;
        let column = (780 / columns.max(1)).clamp(24, 30);
        let width = columns.saturating_mul(column).saturating_add(LEFT);
        let height = bottom(picture, None).saturating_add(ROW * 2);
        Ok(Drawing {
            picture,
            namer: Namer { alloc, played },
            column,
            svg: Svg::new(alloc, width.max(LEGEND).saturating_add(8), height)?,
        })
    }

    /// The left edge of the column of an event, or of the end of all.
    fn left(&self, place: usize) -> u64 {
        let columns = place.min(self.picture.shapes.len()) as u64;
        columns.saturating_mul(self.column).saturating_add(LEFT)
    }

    fn right(&self, place: usize) -> u64 {
        self.left(place.saturating_add(1))
    }

    fn middle(&self, place: usize) -> u64 {
        self.left(place).saturating_add(self.column / 2)
    }

    /// The line of a lane: of a party, the middle of the bars of its outermost calls.
    fn line(&self, lane: Lane) -> u64 {
        bottom(self.picture, Some(lane)).saturating_add(ROW)
    }

    /// The height of a shape: on the line of its lane, or as deep as the call is.
    fn height(&self, shape: &Shape) -> u64 {
        let rows = match shape.lane {
            Lane::Party(_) => shape.depth as u64,
            _ => 0,
        };
        rows.saturating_mul(ROW)
            .saturating_add(self.line(shape.lane))
    }

    /// The drop of the executor, behind all lanes.
    fn draw_band(&mut self, place: usize, shape: &Shape) -> Result<(), AllocError> {
        if !matches!(shape.event, Event::DropBegun { .. }) {
            return Ok(());
        }
        let (left, right) = (self.left(place), self.right(self.picture.end_of(place)));
        let bottom = bottom(self.picture, None);
        self.svg.band(left, right.saturating_sub(left), bottom)?;
        let right = right.saturating_sub(4);
        self.svg
            .text("over", right, ROW / 2, "drop of the executor")
    }

    fn draw_lane(&mut self, lane: Lane) -> Result<(), AllocError> {
        let (y, right) = (self.line(lane), self.left(usize::MAX));
        self.svg.path("base", LEFT, y, format_args!("H{right}"))?;
        let name = self.namer.lane(lane)?;
        self.svg.text("lane", 8, y, name.as_str())
    }

    /// The life of a future, the wait of who is called, and the way from who does something to whom it is done.
    fn draw_lines(&mut self, place: usize, shape: &Shape) -> Result<(), AllocError> {
        let (x, y) = (self.middle(place), self.line(shape.lane));
        let mut class = "way";
        match shape.event {
            Event::Accepted { .. } => {
                let end = self
                    .middle(self.picture.end_of(place))
                    .min(self.left(usize::MAX));
                self.svg.path("life", x, y, format_args!("H{end}"))?;
            }
            Event::Woken { .. } => class = "wake",
            Event::WakerCalled { poll, .. } => {
                class = "notify";
                if let Some(polled) = self.picture.shapes.get(poll as usize) {
                    let (from, above) = (self.middle(poll as usize), self.line(polled.lane));
                    self.svg
                        .path("waits", from, above, format_args!("V{y}H{x}"))?;
                }
            }
            _ => {}
        }
        let party = Lane::Party(shape.party);
        if shape.lane == party || matches!(shape.event, Event::Answered { .. }) {
            return Ok(());
        }
        let above = self.line(party);
        self.svg.path(class, x, above, format_args!("V{y}"))
    }

    /// The bar of a call or a poll.
    fn draw_bar(&mut self, place: usize, shape: &Shape) -> Result<(), AllocError> {
        let (left, y) = (self.left(place).saturating_add(1), self.height(shape));
        let end = self.picture.end_of(place);
        let width = self.right(end).saturating_sub(1).saturating_sub(left);
        match shape.event {
            Event::PollBegun { .. } => self.svg.bar("poll", left, y, width),
            Event::CallBegun { call, .. } => {
                self.svg.bar("call", left, y, width)?;
                let name = self.namer.call(call, self.picture.met_behind(place))?;
                self.svg
                    .text("name", left.saturating_add(3), y, name.as_str())?;
                let taken = (name.len() as u64)
                    .saturating_mul(LETTER)
                    .saturating_add(10);
                self.draw_answer(end, y, width.saturating_sub(taken))
            }
            _ => Ok(()),
        }
    }

    /// What a call is answered that ends at this place: in its bar, if it has so much room for that, or below.
    fn draw_answer(&mut self, place: usize, y: u64, room: u64) -> Result<(), AllocError> {
        let Some(shape) = self.picture.shapes.get(place) else {
            return Ok(());
        };
        let Event::CallEnded { reply, .. } = shape.event else {
            return Ok(());
        };
        let name = self.namer.answer(reply, shape.output)?;
        let right = self.right(place).saturating_sub(3);
        if (name.len() as u64).saturating_mul(LETTER) <= room {
            self.svg.text("answer", right, y, name.as_str())
        } else {
            self.svg
                .text("below", right, y.saturating_add(BAR), name.as_str())
        }
    }

    /// The mark of an event, or the answer with which a poll ends.
    fn draw_mark(&mut self, place: usize, shape: &Shape) -> Result<(), AllocError> {
        let (x, y) = (self.middle(place), self.height(shape));
        let right = self.right(place).saturating_sub(3);
        match shape.event {
            Event::CallBegun { .. } | Event::CallEnded { .. } | Event::PollBegun { .. } => Ok(()),
            Event::DropBegun { .. } | Event::DropEnded { .. } => Ok(()),
            Event::Answered { answer, .. } => match answer {
                Answer::Pending => self.svg.text("answer", right, y, "pending"),
                Answer::Ready => self.svg.text("answer", right, y, "ready"),
            },
            Event::Woken { .. } => self.svg.path("wake", x, y, ARROW),
            Event::WakerCalled { .. } => self.svg.path("notify", x, y, OPEN_ARROW),
            Event::Dropped { .. } => self.svg.path("drop", x, y, CROSS),
            Event::OutputGiven { .. } => self.svg.path("given", x, y, DIAMOND),
            Event::OutputDropped { .. } => self.svg.path("lost", x, y, DIAMOND),
            // On the lower edge of the bar of its call.
            Event::Looked { .. } => self
                .svg
                .path("other", x, y.saturating_sub(ROW - BAR / 2), DOT),
            _ => self.svg.path("other", x, y, DOT),
        }
    }

    fn draw_legend(&mut self) -> Result<(), AllocError> {
        let y = bottom(self.picture, None).saturating_add(ROW);
        for (x, bar, meaning) in [(8, "call", "call"), (72, "poll", "poll of a future")] {
            self.svg.bar(bar, x, y, 18)?;
            self.svg.text("name", x.saturating_add(24), y, meaning)?;
        }
        for (x, class, outline, meaning) in [
            (202, "wake", ARROW, "wake"),
            (262, "notify", OPEN_ARROW, "notify"),
            (330, "drop", CROSS, "drop"),
            (390, "given", DIAMOND, "output given"),
            (495, "lost", DIAMOND, "output dropped"),
            (612, "other", DOT, "other events"),
        ] {
            self.svg.path(class, x, y, outline)?;
            self.svg.text("name", x.saturating_add(12), y, meaning)?;
        }
        Ok(())
    }
}
