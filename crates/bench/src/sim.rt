//! Work of the simulator.
use script::ParseError;
use simulator::answer;
use std::alloc::{AllocError, Global};
use std::rt::Clock;
use std::time::Instant;
use workloads::work::Pollers;
use workloads::{Fault, Timing};

/// How many futures a script has.
const FUTURES: u64 = 1000;

/// How many lines a script has at most.
const LINES: u64 = 10_000;

/// The word by which a tick or run is made.
fn making(pollers: Pollers) -> &'static [u8] {
    match pollers {
        Pollers::Runs(_) => b"run ",
        _ => b"tick ",
    }
}

/// The word by which it is polled.
fn polling(pollers: Pollers) -> &'static [u8] {
    match pollers {
        Pollers::Runs(_) => b"pollrun ",
        _ => b"polltick ",
    }
}

/// So many lines of scripts with such pollers, parsed and run: as many scripts of 10,000 lines as that makes, and one of
/// the lines that are left. The texts are made before the clock starts.
pub fn lines<R: AllocGlobal + Clock>(rt: &R, pollers: Pollers, ops: u64) -> Result<Timing, Fault> {
    let alloc = rt.alloc();
    let whole = script(alloc, pollers, LINES)?;
    let rest = script(alloc, pollers, ops % LINES)?;
    time_lines(rt, whole.as_slice(), rest.as_slice(), ops)
}

/// So many lines: one script as often as that makes, and the other one once.
fn time_lines<R: AllocGlobal + Clock>(
    rt: &R,
    whole: &[u8],
    rest: &[u8],
    ops: u64,
) -> Result<Timing, Fault> {
    let mut moved = 0u64;
    let start = Instant::now(rt)?;
    for _ in 0..ops / LINES {
        play(rt.alloc(), whole)?;
        moved = moved.wrapping_add(LINES);
    }
    play(rt.alloc(), rest)?;
    Timing::since(rt, start, moved.wrapping_add(ops % LINES))
}

/// Runs a script, which shows something where it has a command.
fn play(alloc: Global, script: &[u8]) -> Result<(), Fault> {
    let shown = answer(alloc, script).map_err(fault)?;
    if shown.is_empty() && script.len() > HEAD.len() {
        return Err(Fault::Refused);
    }
    Ok(())
}

fn fault(error: ParseError) -> Fault {
    match error {
        ParseError::NoMemory => Fault::NoMemory,
        ParseError::BadLine(_) => Fault::Refused,
    }
}

/// The first line of each script.
const HEAD: &[u8] = b"limit 1000\n";

/// A script of so many lines. Each of a thousand futures keeps its waker at its first poll, is woken
/// and polled three times more, and goes with its handle. Where there are ticks or runs, they are made and lie down first,
/// and poll the futures in turn.
fn script(alloc: Global, pollers: Pollers, lines: u64) -> Result<Vec<u8>, AllocError> {
    let mut text = Vec::new(alloc);
    for line in 0..lines {
        push_line(&mut text, pollers, line)?;
    }
    Ok(text)
}

/// The line behind so many others.
fn push_line(text: &mut Vec<u8>, pollers: Pollers, before: u64) -> Result<(), AllocError> {
    let Some(command) = before.checked_sub(1) else {
        return text.extend_from_slice(HEAD);
    };
    let count = pollers.count();
    if command < count {
        return push_command(text, making(pollers), &poller(command), b"\n");
    }
    match command.saturating_sub(count).checked_sub(count) {
        Some(later) => push_later(text, pollers, later),
        None => push_poll(text, pollers, command),
    }
}

/// A tick or run takes the next future, or there is none and `try` takes it.
fn push_poll(text: &mut Vec<u8>, pollers: Pollers, command: u64) -> Result<(), AllocError> {
    let count = pollers.count();
    if count == 0 {
        text.extend_from_slice(b"try\n")
    } else {
        push_command(text, polling(pollers), &poller(command % count), b"\n")
    }
}

/// The line behind so many others that follow those that make the pollers.
fn push_later(text: &mut Vec<u8>, pollers: Pollers, command: u64) -> Result<(), AllocError> {
    let future = name(command % FUTURES);
    match command / FUTURES {
        0 => push_command(text, b"spawn ", &future, b" keep\n"),
        2 | 4 | 6 => push_command(text, b"wake ", &future, b"\n"),
        8 => push_command(text, b"drop ", &future, b"\n"),
        _ => push_poll(text, pollers, command),
    }
}

fn push_command(
    text: &mut Vec<u8>,
    word: &[u8],
    name: &[u8],
    rest: &[u8],
) -> Result<(), AllocError> {
    text.extend_from_slice(word)?;
    text.extend_from_slice(name)?;
    text.extend_from_slice(rest)
}

/// The name of the future of this number.
fn name(number: u64) -> [u8; 3] {
    [letter(number / 676), letter(number / 26), letter(number)]
}

/// The name of the tick or run of this number.
fn poller(number: u64) -> [u8; 2] {
    [letter(number / 26), letter(number)]
}

fn letter(number: u64) -> u8 {
    b'a' + (number % 26) as u8
}
