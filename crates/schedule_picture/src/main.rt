//! `schedule_picture` reads a script, as `taskrun sim` does, and writes a picture of its trace, an SVG.
#![tactic(auto)]

mod drawing;
mod names;
mod picture;
mod svg;

use drawing::draw;
use picture::Picture;
use script::{ParseError, parse};
use simulator::play;
use std::alloc::Global;
use std::io;
use std::io::Read;
use std::process::ExitCode;

fn main(rt: HostRuntime) -> io::Result<ExitCode> {
    let mut input = Vec::new(rt.alloc());
    rt.reader().read_to_end(&mut input)?;
    // A text that is no script is reported as `taskrun sim` does.
    match picture_of(rt.alloc(), input.as_slice()) {
        Ok(text) => {
            rt.print(text.as_str())?;
            Ok(ExitCode::SUCCESS)
        }
        Err(ParseError::BadLine(line)) => {
            eprintln!(rt; "line {line}: bad line")?;
            Ok(ExitCode::from(2))
        }
        Err(ParseError::NoMemory) => {
            eprintln!(rt; "out of memory")?;
            Ok(ExitCode::from(3))
        }
    }
}

/// The picture of the script of this text; nothing, if the text has no line.
fn picture_of(alloc: Global, text: &[u8]) -> Result<String, ParseError> {
    let Some(script) = parse(alloc, text)? else {
        return Ok(String::new(alloc));
    };
    let played = play::run(
        alloc,
        script.limit,
        script.is_static,
        script.commands.as_slice(),
    )?;
    let picture = Picture::of(alloc, played.moments.as_slice())?;
    Ok(draw(alloc, &picture, &played)?)
}
