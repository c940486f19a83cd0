//! Scripts are played on the step machine: each command is a call of a party, stepped as the script
//! says.

mod asking;
mod commands;
mod future;
mod handles;
mod inner;
mod own;
mod party;
mod player;
mod runs;
mod settle;
mod turn;

ghost use Rattle.std.specs.Prelude.{◌≡◌, IfOk};
ghost use Rattle.simulator.specs.Play.{Player};
ghost use Rattle.executor_core.specs.AllLaws.{AllLaws};
ghost use Rattle.simulator.specs.ScriptText.{IsPlayed};

use crate::moment::Moment;
use crate::play::player::Player;
use executor_core::Machine;
use executor_core::laws::all_laws;
use executor_laws::laws::traces_continue;
use script::{Command, Names};
use std::alloc::{AllocError, Global};

/// What a run of the commands shows, and the names of the futures that were accepted.
#[derive(Drop)]
pub struct Played {
    pub moments: Vec<Moment>,
    /// In the order of acceptance: the name of future 0 is the first.
    pub names: Names,
    /// The names of the ticks, in the order in which these were made.
    pub ticks: Names,
    /// The names of the runs, in the order in which these were made.
    pub runs: Names,
}

/// Plays the commands on a new machine of this kind with places for so many futures. What it shows is all that the
/// steps that were tried made happen, in order. Ends early only for want of memory, and shows nothing
/// then.
pub fn run(
    alloc: Global,
    limit: u64,
    is_static: bool,
    commands: &[Command],
) -> Result<Played, AllocError>
    ensures { IfOk result (λ played. (last : Player) × IsPlayed limit is_static commands.now last ×
        (played.moments.items ≡ last.moments) × (played.names ≡ last.names) ×
        (played.ticks ≡ last.ticks) × (played.runs ≡ last.run_names)) }
{
    let mut player = Player::new(alloc, commands, limit, is_static)?;
    for (at, command) in commands.iter().enumerate() {
        player.play_unless_stopped(at, command)?;
    }
    keeps_to_laws(&player.machine);
    traces_continue();
    Ok(player.into_played())
}

/// All laws of every list of steps hold of a machine. Does nothing.
fn keeps_to_laws(machine: &Machine)
    ensures { AllLaws machine.now }
{
    all_laws();
    machine.is_reached();
}
