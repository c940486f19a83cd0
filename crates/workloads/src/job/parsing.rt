//! The text of lists of jobs, read.
use crate::job::list::{JOBS, job};
use crate::{Fault, Timing};
use jobs::{Job, ParseError};
use std::alloc::{AllocError, AllocGlobal, Global};
use std::rt::Clock;
use std::time::Instant;

/// So many lines, 100,000 in a text. The texts are made before the clock starts.
pub fn parse<R: AllocGlobal + Clock>(rt: &R, ops: u64) -> Result<Timing, Fault> {
    let whole = text(rt.alloc(), JOBS)?;
    time_parse(rt, &whole, &text(rt.alloc(), ops % JOBS)?, ops / JOBS)
}

/// One text so many times, and the other one once.
fn time_parse<R: AllocGlobal + Clock>(
    rt: &R,
    whole: &[u8],
    rest: &[u8],
    rounds: u64,
) -> Result<Timing, Fault> {
    let mut moved = 0u64;
    let start = Instant::now(rt)?;
    for _ in 0..rounds {
        moved = moved.wrapping_add(lines_of(rt.alloc(), whole)?);
    }
    moved = moved.wrapping_add(lines_of(rt.alloc(), rest)?);
    Timing::since(rt, start, moved)
}

/// How many jobs are read.
fn lines_of(alloc: Global, text: &[u8]) -> Result<u64, Fault> {
    match jobs::parse(alloc, text) {
        Ok(list) => Ok(list.len() as u64),
        Err(ParseError::NoMemory) => Err(Fault::NoMemory),
        Err(ParseError::BadLine(_)) => Err(Fault::Refused),
    }
}

/// The text of so many jobs.
fn text(alloc: Global, count: u64) -> Result<Vec<u8>, AllocError> {
    let mut text = Vec::new(alloc);
    for number in 0..count {
        push_line(&mut text, alloc, job(number))?;
    }
    Ok(text)
}

fn push_line(text: &mut Vec<u8>, alloc: Global, job: Job) -> Result<(), AllocError> {
    let line = match job {
        Job::Sum(last) => format!(in alloc; "sum {last}\n")?,
        Job::Mul(left, right) => format!(in alloc; "mul {left} {right}\n")?,
    };
    text.extend_from_slice(line.as_bytes())
}
