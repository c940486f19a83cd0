//! From the text of a script to the text of what it does.
ghost use Rattle.std.specs.Prelude.{◌<◌};

use crate::one_thread::desk::{
    OnLocal, OneOf, ScriptExecutor, ScriptRun, ScriptStatic, ScriptTick,
};
use crate::one_thread::handle::{Handle, Kept};
use crate::one_thread::keeper::Keeper;
use local_executor::{LocalExecutor, StaticLocalExecutor};
use player_parts::{
    Answer, Handles, PlayError, Player, Shared, SharedShelf, Shelf, Stage, Stop, play_closed,
    play_on, read_whole, show_end,
};
use script::{Command, Word};
use std::alloc::Global;
use std::random::RandomSource;
use std::rc::Rc;
use std::sync::Wait;

/// What plays a script on an executor of one thread.
type LocalPlayer<R> = Player<Handle<R>, Keeper<R>>;

/// Plays a script of `taskrun sim` on an executor of one thread, owned or static, and gives the text of what happens: that of the
/// simulator. It takes whole calls of one party; others are `NotWhole`. Before anything is played the first bad line is refused,
/// and then the first that isn't whole. Behind a `leak` the executor is the static one that this gives. A static executor has no
/// `end` and no `leak`, and `empty` is answered there by the player's own count of drops.
pub fn play_local<R>(rt: R, alloc: Global, script: &[u8]) -> Result<Vec<u8>, PlayError>
where
    R: RandomSource + Wait + Copy + Drop,
{
    let Some(script) = read_whole(alloc, script, false)? else {
        return Ok(Vec::new(alloc));
    };
    if script.limit == 0 {
        return Err(PlayError::NoMemory);
    }
    let stage = Stage::new(alloc, script.limit)?;
    play_in(
        rt,
        alloc,
        &stage,
        script.is_static,
        script.limit as usize,
        script.commands.as_slice(),
    );
    Ok(stage.take_text()?)
}

/// Plays the commands on a new executor of so many places.
fn play_in<R: RandomSource + Wait + Copy + Drop>(
    rt: R,
    alloc: Global,
    stage: &Shared,
    is_static: bool,
    limit: usize,
    commands: &[Command],
)
    requires { 0 < limit }
{
    let Ok(shelf) = Shelf::new(alloc, stage) else {
        stage.lack_memory();
        return;
    };
    let Some(player) = new_player::<R>(alloc, stage, &shelf) else {
        stage.lack_memory();
        return;
    };
    if is_static {
        match StaticLocalExecutor::new(rt, alloc, limit) {
            Ok(executor) => play_static(player, &shelf, executor, commands),
            Err(_) => stage.lack_memory(),
        }
    } else {
        match LocalExecutor::new(rt, alloc, limit) {
            Ok(executor) => play_owned(player, &shelf, executor, commands),
            Err(_) => stage.lack_memory(),
        }
    }
}

fn new_player<R: Wait + Copy + Drop>(
    alloc: Global,
    stage: &Shared,
    shelf: &SharedShelf<Kept<R>>,
) -> Option<LocalPlayer<R>> {
    match (
        Rc::clone(stage),
        Rc::clone(shelf),
        Handles::new(alloc, stage),
    ) {
        (Ok(stage), Ok(shelf), Ok(handles)) => {
            Some(Player::new(alloc, stage, Keeper { shelf }, handles))
        }
        _ => None,
    }
}

/// Plays the commands on a static executor.
fn play_static<R: Wait + Copy + Drop>(
    player: LocalPlayer<R>,
    shelf: &SharedShelf<Kept<R>>,
    executor: ScriptStatic<R>,
    commands: &[Command],
) {
    let mut player = player;
    play_leaked(&mut player, shelf, &executor, commands, 0);
    drop(executor);
}

/// Plays the commands on an executor, drops it or leaks it, and plays what follows.
fn play_owned<R: Wait + Copy + Drop>(
    player: LocalPlayer<R>,
    shelf: &SharedShelf<Kept<R>>,
    executor: ScriptExecutor<R>,
    commands: &[Command],
) {
    let mut player = player;
    match play_open(&mut player, shelf, &executor, commands) {
        Stop::Over => drop(executor),
        Stop::End(place) => {
            drop(executor);
            play_closed(&mut player, commands, place);
        }
        Stop::Leak(place) => {
            let executor = executor.leak();
            show_end(&player.stage, Word::Leak, Answer::Done);
            play_leaked(
                &mut player,
                shelf,
                &executor,
                commands,
                place.saturating_add(1),
            );
            drop(executor);
        }
    }
}

/// Plays the commands until one drops the executor or leaks it.
fn play_open<'a, R: Wait + Copy + Drop>(
    player: &mut LocalPlayer<R>,
    shelf: &'a SharedShelf<Kept<R>>,
    executor: &'a ScriptExecutor<R>,
    commands: &[Command],
) -> Stop {
    let executor = OneOf::Owned(executor);
    let desk = OnLocal { executor, shelf };
    play_on::<OnLocal<'a, R>, ScriptTick<'a, R>, ScriptRun<'a, R>, Handle<R>, Keeper<R>>(
        player, &desk, commands, 0,
    )
}

/// Plays the commands from this place on on a static executor, which none of them drops or leaks.
fn play_leaked<'a, R: Wait + Copy + Drop>(
    player: &mut LocalPlayer<R>,
    shelf: &'a SharedShelf<Kept<R>>,
    executor: &'a ScriptStatic<R>,
    commands: &[Command],
    from: usize,
) {
    let executor = OneOf::Static(executor);
    let desk = OnLocal { executor, shelf };
    play_on::<OnLocal<'a, R>, ScriptTick<'a, R>, ScriptRun<'a, R>, Handle<R>, Keeper<R>>(
        player, &desk, commands, from,
    );
}
