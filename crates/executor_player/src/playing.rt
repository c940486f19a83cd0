//! From the text of a script to the text of what it does.
ghost use Rattle.std.specs.Prelude.{◌<◌};

use crate::commands::{play_leaked, play_open};
use crate::desk::{ScriptExecutor, ScriptStatic};
use crate::future::Planned;
use crate::handle::HoldIn;
use crate::outside::ScriptRealm;
use crate::shelf::{KeepIn, Kept};
use async_executor::{Executor, StaticExecutor};
use async_task::Runtime;
use player_parts::{
    Answer, Handles, Hold, Keep, PlayError, Player, Shared, SharedShelf, Shelf, Stage, Stop,
    play_closed, read_whole, show_end,
};
use script::{Command, Word};
use std::alloc::Global;
use std::rc::Rc;

/// Plays a script in a realm, as `Plays` says.
pub fn play_script<F: Planned<H, R>, H: HoldIn<R>, K: KeepIn<R>, R: Runtime>(
    rt: R,
    alloc: Global,
    realm: &'static ScriptRealm<R>,
    script: &[u8],
) -> Result<Vec<u8>, PlayError> {
    let Some(script) = read_whole(alloc, script, false)? else {
        return Ok(Vec::new(alloc));
    };
    if script.limit == 0 {
        return Err(PlayError::NoMemory);
    }
    let stage = Stage::new(alloc, script.limit)?;
    play_in::<F, H, K, R>(
        rt,
        alloc,
        realm,
        &stage,
        script.is_static,
        script.limit as usize,
        script.commands.as_slice(),
    );
    Ok(stage.take_text()?)
}

/// Plays the commands on a new executor of so many places.
fn play_in<F: Planned<H, R>, H: HoldIn<R>, K: KeepIn<R>, R: Runtime>(
    rt: R,
    alloc: Global,
    realm: &'static ScriptRealm<R>,
    stage: &Shared,
    is_static: bool,
    limit: usize,
    commands: &[Command],
)
    requires { 0 < limit }
{
    let Ok(shelf) = Shelf::new(alloc, stage) else {
        stage.lack_memory();
        return;
    };
    let Some(player) = new_player::<H, K, R>(rt, alloc, realm, stage, &shelf) else {
        stage.lack_memory();
        return;
    };
    if is_static {
        match StaticExecutor::new(rt, alloc, realm, limit) {
            Ok(executor) => play_static::<F, H, K, R>(player, &shelf, executor, commands),
            Err(_) => stage.lack_memory(),
        }
    } else {
        match Executor::new(rt, alloc, realm, limit) {
            Ok(executor) => play_owned::<F, H, K, R>(player, &shelf, executor, commands),
            Err(_) => stage.lack_memory(),
        }
    }
}

fn new_player<H: Hold, K: KeepIn<R>, R: Runtime>(
    rt: R,
    alloc: Global,
    realm: &'static ScriptRealm<R>,
    stage: &Shared,
    shelf: &SharedShelf<Kept>,
) -> Option<Player<H, K>> {
    match (
        Rc::clone(stage),
        Rc::clone(shelf),
        Handles::new(alloc, stage),
    ) {
        (Ok(stage), Ok(shelf), Ok(handles)) => {
            Some(Player::new(alloc, stage, K::of(rt, realm, shelf), handles))
        }
        _ => None,
    }
}

/// Plays the commands on a static executor.
fn play_static<F: Planned<H, R>, H: HoldIn<R>, K: Keep, R: Runtime>(
    player: Player<H, K>,
    shelf: &SharedShelf<Kept>,
    executor: ScriptStatic<F, R>,
    commands: &[Command],
) {
    let mut player = player;
    play_leaked(&mut player, shelf, &executor, commands, 0);
    drop(executor);
}

/// Plays the commands on an executor, drops it or leaks it, and plays what follows.
fn play_owned<F: Planned<H, R>, H: HoldIn<R>, K: Keep, R: Runtime>(
    player: Player<H, K>,
    shelf: &SharedShelf<Kept>,
    executor: ScriptExecutor<F, R>,
    commands: &[Command],
) {
    let mut player = player;
    match play_open(&mut player, &*shelf, &executor, commands) {
        Stop::Over => drop(executor),
        Stop::End(place) => {
            drop(executor);
            play_closed(&mut player, commands, place);
        }
        Stop::Leak(place) => {
            let executor = executor.leak();
            show_end(&player.stage, Word::Leak, Answer::Done);
            play_leaked(
                &mut player,
                &*shelf,
                &executor,
                commands,
                place.saturating_add(1),
            );
            drop(executor);
        }
    }
}
