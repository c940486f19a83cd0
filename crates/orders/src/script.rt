//! An order as a script, which `taskrun sim` plays.

use crate::calls::{Call, Came, Made, letter};
use crate::order::{Order, Output};
use std::alloc::{AllocError, Global};

// What a script of `sim` may have.
const MOST_FUTURES: usize = 26;

const MOST_POLLS: usize = 8;

const MOST_OUTPUT: u64 = 1_000_000;

/// The script of an order, and of a poll of each handle that is left behind it. None, where a script may not have so much.
pub fn script(alloc: Global, order: &Order) -> Result<Option<String>, AllocError> {
    let made = order.made.as_slice();
    let spawned = made.iter().filter(|made| is_spawn(made)).count();
    if spawned > MOST_FUTURES {
        return Ok(None);
    }
    let mut script = String::from_str(alloc, "limit 26\n")?;
    for one in made {
        if !write_call(&mut script, one.call, order)? {
            return Ok(None);
        }
    }
    for number in 0..spawned as u64 {
        if !made.iter().any(|made| made.call == Call::Leave(number)) {
            writeln!(script, "poll {}", letter(number))?;
        }
    }
    Ok(Some(script))
}

fn is_spawn(made: &Made) -> bool {
    matches!(made.call, Call::Spawn(_))
}

/// The line of a call, if it has one. False, where its future is polled too often.
fn write_call(script: &mut String, call: Call, order: &Order) -> Result<bool, AllocError> {
    match call {
        Call::Spawn(number) => {
            write!(script, "spawn {}", letter(number))?;
            if !write_items(script, number, order)? {
                return Ok(false);
            }
            script.push('\n')?;
        }
        Call::Poll | Call::Refuse => script.push_str("try\n")?,
        Call::Wake(number) | Call::Stray(number) => writeln!(script, "wake {}", letter(number))?,
        Call::Cancel(number) => writeln!(script, "cancel {}", letter(number))?,
        Call::Leave(number) => writeln!(script, "drop {}", letter(number))?,
        Call::Step => {}
    }
    Ok(true)
}

/// What a future did at its polls: where it wasn't ready, its waker is kept, for the wake that may follow. False, where these are too
/// many.
fn write_items(script: &mut String, future: u64, order: &Order) -> Result<bool, AllocError> {
    let mut polls = 0usize;
    for made in &order.made {
        match made.came {
            Some(Came::Pending(number)) if number == future => {
                script.push_str(" keep")?;
                polls = polls.saturating_add(1);
            }
            Some(Came::Ready(number)) if number == future => {
                write!(script, " ready={}", value_of(number, &order.outputs))?;
                polls = polls.saturating_add(1);
            }
            _ => {}
        }
    }
    if polls == 0 {
        script.push_str(" pend")?;
    }
    Ok(polls <= MOST_POLLS)
}

/// The output of a future as a number; 0, where it is none that a script may have.
fn value_of(future: u64, outputs: &[Output]) -> u64 {
    for output in outputs {
        if output.number == future {
            let value = output.text.parse::<u64>().unwrap_or(0);
            return if value <= MOST_OUTPUT { value } else { 0 };
        }
    }
    0
}
