//! The commands of a script, one after the other.
use crate::answer::{Answer, show_end};
use crate::desk::Desk;
use crate::errors::PlayError;
use crate::handle::Hold;
use crate::player::Player;
use crate::shelf::Keep;
use crate::sitting::Seats;
use script::{Command, Item, Plain, Refusal, Request, Script, Word, parse};
use std::alloc::Global;

/// Where the commands on an executor stop.
#[derive(Clone, Copy)]
pub enum Stop {
    /// Behind the last.
    Over,
    /// The executor is dropped by the one at this place.
    End(usize),
    /// The executor is leaked by the one at this place.
    Leak(usize),
}

/// Reads a script of whole calls. None is one without a line. The first bad line is refused, and then the first that is no
/// whole call of one party, or has an item `nest` where none may.
pub fn read_whole(alloc: Global, text: &[u8], may_nest: bool) -> Result<Option<Script>, PlayError> {
    let Some(script) = parse(alloc, text)? else {
        return Ok(None);
    };
    match first_not_whole(script.commands.as_slice(), may_nest) {
        Some(line) => Err(PlayError::NotWhole(line)),
        None => Ok(Some(script)),
    }
}

/// The number of the first line that is no whole call.
fn first_not_whole(commands: &[Command], may_nest: bool) -> Option<u64> {
    for (place, command) in commands.iter().enumerate() {
        let is_whole = match whole(command) {
            Some(request) => may_nest || !nests(&request.plain),
            None => false,
        };
        if !is_whole {
            return Some((place as u64).saturating_add(2));
        }
    }
    None
}

/// A command that is a whole call of one party.
fn whole(command: &Command) -> Option<&Request> {
    match command {
        Command::Whole(request) => Some(request),
        _ => None,
    }
}

/// A future is spawned that runs another in its poll.
fn nests(plain: &Plain) -> bool {
    match plain {
        Plain::Spawn { items, .. } => items.as_slice().iter().any(|item| *item == Item::Nest),
        _ => false,
    }
}

/// Plays the commands from this place on, until one drops the executor or leaks it.
pub fn play_on<D: Desk<H, T, N>, T: Drop, N: Drop, H: Hold, K: Keep>(
    player: &mut Player<H, K>,
    desk: &D,
    commands: &[Command],
    from: usize,
) -> Stop {
    let mut seats: Seats<T, N> = Seats::new(player.alloc);
    for (place, command) in commands.iter().enumerate().skip(from) {
        if let Some(Request { refusal, plain }) = whole(command) {
            if desk.may_end() && seats.are_free() {
                match plain {
                    Plain::End => return Stop::End(place),
                    Plain::Leak => return Stop::Leak(place),
                    _ => {}
                }
            }
            player.stage.asking.begin(*refusal);
            let answer = player.call(desk, &mut seats, plain);
            player.stage.asking.begin(Refusal::Nothing);
            player.keeper.let_replaced_go();
            show_end(&player.stage, plain.word(), answer);
        }
    }
    player.stage.end();
    Stop::Over
}

/// The executor is dropped, by the command at this place: shows that, and plays what follows.
pub fn play_closed<H, K>(player: &mut Player<H, K>, commands: &[Command], place: usize)
where
    H: Hold,
    K: Keep,
{
    show_end(&player.stage, Word::End, Answer::Done);
    for command in commands.iter().skip(place.saturating_add(1)) {
        if let Some(Request { refusal, plain }) = whole(command) {
            player.stage.asking.begin(*refusal);
            let answer = player.call_on_handle(plain);
            show_end(&player.stage, plain.word(), answer);
        }
    }
    player.stage.end();
}
