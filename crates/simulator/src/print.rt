//! The text of a run: a line for each poll, answer and drop, and one for the end of each command.

ghost use Rattle.std.specs.Prelude.{◌≡◌, ◌++◌, codes, IfOk, OnOk};
ghost use Rattle.simulator.specs.EndText as ends;
ghost use Rattle.simulator.specs.EndText.{end_text, outcome_text};
ghost use Rattle.simulator.specs.EventText.{answer_text, event_text, line_on, name_of, outside_name, outside_of_run, outside_of_tick};
ghost use Rattle.simulator.specs.Text.{moment_text, moments_text};

use crate::moment::{Moment, Outcome};
use executor_model::{Answer, Event, Reply, Waker};
use script::{Ending, Names, Word};
use std::alloc::{AllocError, Global};

/// The number of the outside waker of a tick, and the tick of such a one. Those of futures are numbered as these are.
pub fn waker_of_tick(t: u64) -> u64
    ensures { result ≡ outside_of_tick t }
{
    u64::MAX - t
}

/// The number of the outside waker of a run, and the run of such a one: 2^63 further on.
pub fn waker_of_run(r: u64) -> u64
    ensures { result ≡ outside_of_run r }
{
    r.wrapping_add(9_223_372_036_854_775_808)
}

/// The text of these moments, where futures, ticks and runs have these names in the order in which they were made.
pub fn text_of(
    alloc: Global,
    moments: &[Moment],
    names: &Names,
    ticks: &Names,
    runs: &Names,
) -> Result<Vec<u8>, AllocError>
    ensures { IfOk result (λ text. text.items ≡ moments_text names.now ticks.now runs.now moments.now) }
{
    let mut text = Vec::new(alloc);
    for moment in moments {
        push_moment(&mut text, moment, names, ticks, runs)?;
    }
    Ok(text)
}

fn push_moment(
    text: &mut Vec<u8>,
    moment: &Moment,
    names: &Names,
    ticks: &Names,
    runs: &Names,
) -> Result<(), AllocError>
    ensures { OnOk result (text.new.items ≡ text.old.items ++ moment_text names.now ticks.now runs.now moment.now) }
{
    match moment {
        Moment::Happened(event) => push_event(text, event, names, ticks, runs),
        Moment::Ended { word, outcome } => push_end(text, *word, *outcome),
        Moment::Stopped => text.extend_from_slice(b"waits\n"),
    }
}

fn push_event(
    text: &mut Vec<u8>,
    event: &Event,
    names: &Names,
    ticks: &Names,
    runs: &Names,
) -> Result<(), AllocError>
    ensures { OnOk result (text.new.items ≡ text.old.items ++ event_text names.now ticks.now runs.now event.now) }
{
    match *event {
        Event::PollBegun { future, .. } => push_line_on(text, b"poll", future, names),
        Event::Answered { future, answer, .. } => push_line_on(
            text,
            answer_bytes(answer),
            future,
            names,
        ),
        Event::Dropped { future, .. } => push_line_on(text, b"drop", future, names),
        Event::OutputDropped { future, .. } => push_line_on(text, b"lose", future, names),
        Event::WakerCalled {
            waker: Waker::Outside(x),
            ..
        } => push_call(text, x, names, ticks, runs),
        // Nothing is shown of the others.
        _ => Ok(()),
    }
}

fn answer_bytes(answer: Answer) -> &'static [u8]
    ensures { result.now ≡ answer_text answer }
{
    match answer {
        Answer::Ready => b"ready",
        Answer::Pending => b"pending",
    }
}

fn push_line_on(
    text: &mut Vec<u8>,
    happened: &[u8],
    future: u64,
    names: &Names,
) -> Result<(), AllocError>
    ensures { OnOk result (text.new.items ≡
        text.old.items ++ line_on happened.now (name_of names.now future)) }
{
    text.extend_from_slice(happened)?;
    text.extend_from_slice(b" ")?;
    push_name(text, future, names)?;
    text.extend_from_slice(b"\n")
}

/// An outside waker is called.
fn push_call(
    text: &mut Vec<u8>,
    x: u64,
    names: &Names,
    ticks: &Names,
    runs: &Names,
) -> Result<(), AllocError>
    ensures { OnOk result (text.new.items ≡
        text.old.items ++ line_on (codes "call") (outside_name names.now ticks.now runs.now x)) }
{
    text.extend_from_slice(b"call ")?;
    push_name(text, x, names)?;
    push_name(text, waker_of_tick(x), ticks)?;
    push_name(text, waker_of_run(x), runs)?;
    text.extend_from_slice(b"\n")
}

/// The name of a future, tick or run, and nothing for one that has none.
fn push_name(text: &mut Vec<u8>, future: u64, names: &Names) -> Result<(), AllocError>
    ensures { OnOk result (text.new.items ≡ text.old.items ++ name_of names.now future) }
{
    match names.get(future as usize) {
        Some(name) => text.extend_from_slice(name.letters()),
        None => Ok(()),
    }
}

fn push_end(text: &mut Vec<u8>, word: Word, outcome: Outcome) -> Result<(), AllocError>
    ensures { OnOk result (text.new.items ≡ text.old.items ++ end_text word outcome) }
{
    text.extend_from_slice(word.text())?;
    text.extend_from_slice(b": ")?;
    push_outcome(text, outcome)?;
    text.extend_from_slice(b"\n")
}

/// Appends how a command ended, as the line at its end says it.
pub fn push_outcome(text: &mut Vec<u8>, outcome: Outcome) -> Result<(), AllocError>
    ensures { OnOk result (text.new.items ≡ text.old.items ++ outcome_text outcome) }
{
    match outcome {
        Outcome::Answered(reply) => text.extend_from_slice(ending_of(reply).text()),
        Outcome::Output(value) => {
            text.extend_from_slice(Ending::Ready.text())?;
            let digits = format!(in *text.allocator(); " {value}")?;
            text.extend_from_slice(digits.as_bytes())
        }
        Outcome::NotPossible => text.extend_from_slice(Ending::NotPossible.text()),
        Outcome::Waits => text.extend_from_slice(Ending::Waits.text()),
    }
}

/// How a command ended whose call was answered so.
fn ending_of(reply: Reply) -> Ending
    ensures { result ≡ ends.ending_of reply }
{
    match reply {
        Reply::Made => Ending::Made,
        Reply::Full => Ending::Full,
        Reply::Yes => Ending::Yes,
        Reply::No => Ending::No,
        Reply::Done => Ending::Done,
        Reply::NoMemory => Ending::NoMemory,
        Reply::Pending => Ending::Pending,
        Reply::Ready => Ending::Ready,
        Reply::Cancelled => Ending::Cancelled,
        Reply::Finished => Ending::Finished,
    }
}
