//! The commands of a script on its executor, owned or static.
use crate::desk::{OnExecutor, OnStatic, ScriptExecutor, ScriptStatic};
use crate::future::Planned;
use crate::handle::HoldIn;
use crate::seat::{ScriptRun, ScriptTick};
use crate::shelf::Kept;
use async_task::Runtime;
use player_parts::{Keep, Player, SharedShelf, Stop, play_on};
use script::Command;

/// Plays the commands until one drops the executor or leaks it.
pub fn play_open<'a, F: Planned<H, R>, H: HoldIn<R>, K: Keep, R: Runtime>(
    player: &mut Player<H, K>,
    shelf: &'a SharedShelf<Kept>,
    executor: &'a ScriptExecutor<F, R>,
    commands: &[Command],
) -> Stop {
    let desk = OnExecutor { executor, shelf };
    play_on::<OnExecutor<'a, F, R>, ScriptTick<'a, F, R>, ScriptRun<'a, F, H, R>, H, K>(
        player, &desk, commands, 0,
    )
}

/// Plays the commands from this place on on a static executor, which none of them drops or leaks.
pub fn play_leaked<'a, F: Planned<H, R>, H: HoldIn<R>, K: Keep, R: Runtime>(
    player: &mut Player<H, K>,
    shelf: &'a SharedShelf<Kept>,
    executor: &'a ScriptStatic<F, R>,
    commands: &[Command],
    from: usize,
) {
    let desk = OnStatic { executor, shelf };
    play_on::<OnStatic<'a, F, R>, ScriptTick<'a, F, R>, ScriptRun<'a, F, H, R>, H, K>(
        player, &desk, commands, from,
    );
}
