//! What the program reads first and says last.
use crate::report::{Call, Refused, Report, Wrong};
use std::alloc::Global;
use std::io::Read;
use std::process::ExitCode;

/// The number that standard input begins with, of three digits at most.
pub fn spare_requests<R: Input>(rt: &R) -> u64 {
    let mut line = [0; 3];
    let mut number = 0u64;
    if rt.reader().read(&mut line).is_ok() {
        for byte in line {
            if byte.is_ascii_digit() {
                number = number
                    .saturating_mul(10)
                    .saturating_add((byte - b'0') as u64);
            }
        }
    }
    number
}

/// Makes so many requests for memory, and gives it back.
pub fn spend(alloc: Global, requests: u64) {
    for _ in 0..requests {
        drop(Box::new(alloc, 0u8));
    }
}

/// Prints which call was refused, and what was wrong first. A failure where something was, or that can't be printed.
pub fn tell<R: Print>(rt: &R, report: &Report) -> ExitCode {
    let printed = match report.refused() {
        None => println!(rt; "refused: nothing"),
        Some(
            Refused {
                place: _,
                call: Call::Own,
            },
        ) => println!(rt; "refused: {}", Call::Own),
        Some(Refused { place, call }) => println!(rt; "refused: {place}: {call}"),
    };
    if let Some(Wrong { place, row }) = report.wrong() {
        let _ = println!(rt; "wrong: {place}: row {row}");
        return ExitCode::FAILURE;
    }
    if printed.is_err() {
        return ExitCode::FAILURE;
    }
    ExitCode::SUCCESS
}
