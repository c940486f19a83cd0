//! From the text of a script to the text of what it does.
ghost use Rattle.std.specs.Prelude.{◌<◌};

use crate::one_owner::desk::{OnSolo, end, leak};
use crate::one_owner::handle::Handle;
use crate::one_owner::keeper::Keeper;
use crate::one_owner::link::Link;
use crate::one_owner::runs::ScriptRun;
use crate::one_owner::store::Store;
use crate::one_owner::ticks::ScriptTick;
use crate::one_owner::waker::TaskWaker;
use player_parts::{
    Answer, Handles, PlayError, Player, Shared, SharedShelf, Shelf, Stage, Stop, play_closed,
    play_on, read_whole, show_end,
};
use script::{Command, Word};
use solo::Kind;
use std::alloc::Global;
use std::rc::Rc;
use std::sync::Wait;

/// What plays a script on an executor of one owner.
type SoloPlayer<R> = Player<Handle<R>, Keeper<R>>;

/// What a script is played on.
#[derive(Drop)]
struct House<R: Wait + Copy + Drop> {
    store: Store<R>,
    shelf: SharedShelf<TaskWaker<R>>,
    link: Link<R>,
}

/// Plays a script of `taskrun sim` on an executor of one owner, owned or static, and gives the text of what happens: that of the
/// simulator. It takes whole calls of one party; others are `NotWhole`. Before anything is played the first bad line is refused,
/// and then the first that isn't whole. A static executor, and a leaked one, has no `end` and no `leak`.
pub fn play_solo<R>(rt: R, alloc: Global, script: &[u8]) -> Result<Vec<u8>, PlayError>
where
    R: Wait + Copy + Drop,
{
    let Some(script) = read_whole(alloc, script, true)? else {
        return Ok(Vec::new(alloc));
    };
    if script.limit == 0 {
        return Err(PlayError::NoMemory);
    }
    let stage = Stage::new(alloc, script.limit)?;
    let kind = if script.is_static {
        Kind::Static
    } else {
        Kind::Owned
    };
    match (
        new_house(rt, alloc, &stage, script.limit as usize, kind),
        Handles::new(alloc, &stage),
    ) {
        (Some(house), Ok(handles)) => match (Rc::clone(&stage), Rc::clone(&house.shelf)) {
            (Ok(shown), Ok(shelf)) => {
                let mut player = Player::new(alloc, shown, Keeper { shelf }, handles);
                play_in(
                    &mut player,
                    &house,
                    script.is_static,
                    script.commands.as_slice(),
                );
            }
            _ => stage.lack_memory(),
        },
        _ => stage.lack_memory(),
    }
    Ok(stage.take_text()?)
}

/// A new executor of so many places, with no futures and no wakers.
fn new_house<R: Wait + Copy + Drop>(
    rt: R,
    alloc: Global,
    stage: &Shared,
    limit: usize,
    kind: Kind,
) -> Option<House<R>>
    requires { 0 < limit }
{
    match (
        Rc::clone(stage),
        Shelf::new(alloc, stage),
        Link::new(rt, alloc, limit, kind),
    ) {
        (Ok(stage), Ok(shelf), Some(link)) => Some(House {
            store: Store::new(alloc, stage),
            shelf,
            link,
        }),
        _ => None,
    }
}

/// Plays the commands, until one drops the executor or leaks it, and what follows.
fn play_in<R: Wait + Copy + Drop>(
    player: &mut SoloPlayer<R>,
    house: &House<R>,
    is_static: bool,
    commands: &[Command],
) {
    match play_from(player, house, !is_static, commands, 0) {
        Stop::Over => {}
        Stop::End(place) => {
            end(&house.link, &house.store);
            play_closed(player, commands, place);
            return;
        }
        Stop::Leak(place) => {
            leak(&house.link);
            show_end(&player.stage, Word::Leak, Answer::Done);
            play_from(player, house, false, commands, place.saturating_add(1));
        }
    }
    end(&house.link, &house.store);
}

/// Plays the commands from this place on, until one drops the executor or leaks it, where that may be.
fn play_from<'a, R: Wait + Copy + Drop>(
    player: &mut SoloPlayer<R>,
    house: &'a House<R>,
    may_end: bool,
    commands: &[Command],
    from: usize,
) -> Stop {
    let desk = OnSolo {
        link: &house.link,
        store: &house.store,
        shelf: &house.shelf,
        may_end,
    };
    play_on::<OnSolo<'a, R>, ScriptTick<R>, ScriptRun<R>, Handle<R>, Keeper<R>>(
        player, &desk, commands, from,
    )
}
