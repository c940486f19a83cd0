//! What no script of `cases` says of the language of scripts: a text that is no UTF-8, and the longest one.
use script::{ParseError, parse};
use std::alloc::AllocGlobal;
use std::process::Abort;

// How many commands are read from a text.
fn commands_of<R: Abort + AllocGlobal>(rt: &R, text: &[u8]) -> Result<usize, ParseError> {
    let script = parse(rt.alloc(), text)?.expect(rt, "a script");
    Ok(script.commands.len())
}

// The same, of a text whose first 10,000 lines are a limit and commands, and which ends so.
fn commands_of_ten_thousand_lines<R: Abort + AllocGlobal>(
    rt: &R,
    end: &str,
) -> Result<usize, ParseError> {
    let tries = "try\n".repeat(rt.alloc(), 9_999).expect(rt, "memory");
    let text = format!(in rt.alloc(); "limit 1\n{tries}{end}").expect(rt, "memory");
    commands_of(rt, text.as_bytes())
}

#[test]
fn the_last_line_and_the_first_bad_one(rt: HostRuntime) {
    let bytes = commands_of(&rt, b"limit 1\ntry\n\xff\xfe\nfly");
    assert_eq!(rt; bytes, Err(ParseError::BadLine(3)));
    let commands = commands_of_ten_thousand_lines(&rt, "");
    assert_eq!(rt; commands, Ok(9_999));
    let commands = commands_of_ten_thousand_lines(&rt, "try");
    assert_eq!(rt; commands, Err(ParseError::BadLine(10_001)));
}
