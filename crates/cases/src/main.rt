//! Plays scripts beside what they have to show, by families, and says how many show it.
//!
//! `cases` plays all of its `data/`, a line a family, and the first script of a family that doesn't show what it has to, with both
//! texts; then lists that seeds make, of which each executor shows what the step machine does; then, of each family, a few scripts
//! of which one has a wrong line, and lists of which one is wrong. `cases FAMILY FILE` plays one file, `cases lists` the lists.
#![tactic(auto)]

mod case;
mod family;
mod fault;
mod lists;
mod players;
mod shown;
mod verdict;

use call_player::{Kept, PlaysTasks, TaskPlayer, Tasks};
use executor_player::{ExecutorPlayer, Plays, ScriptRealm};
use family::Family;
use fault::Fault;
use lists::Lists;
use players::Players;
use std::alloc::AllocGlobal;
use std::marker::PhantomData;
use std::process::ExitCode;
use std::random::RandomSource;
use std::rt::{Env, Files};
use std::sync::Wait;
use std::{env, fs};
use verdict::judged;

fn main(rt: HostRuntime) -> ExitCode {
    // What holds types of tasks beside a realm is written as a struct, here where `rt` is known: no call makes it with a proof.
    let alloc = rt.alloc();
    let ended = match (ScriptRealm::leak(rt, alloc), Tasks::leak(rt, alloc)) {
        (Ok(executors), Ok(tasks)) => {
            let executors: ExecutorPlayer<HostRuntime> = ExecutorPlayer {
                rt,
                alloc,
                realm: executors,
                kinds: PhantomData,
            };
            let tasks = TaskPlayer {
                rt,
                alloc,
                realm: tasks,
                kept: Kept::new(alloc),
            };
            run(rt, &mut Players { executors, tasks })
        }
        (Err(error), _) | (_, Err(error)) => Err(Fault::from(error)),
    };
    match ended {
        Ok(()) => ExitCode::SUCCESS,
        Err(fault) => {
            // A fault that can't be printed still has its status.
            let _ = eprintln!(rt; "{fault}");
            ExitCode::from(fault.status())
        }
    }
}

/// Does what the arguments ask.
fn run<E, T, R>(rt: R, players: &mut Players<E, T>) -> Result<(), Fault>
where
    E: Plays,
    T: PlaysTasks,
    R: AllocGlobal + Env + Files + Print + RandomSource + Wait + Copy + Drop,
{
    let words: Vec<String> = env::args(&rt)?.skip(1).collect(rt.alloc())?;
    match words.as_slice() {
        [] => play_all(rt, players),
        [lists] if lists.as_str() == "lists" => Lists::ALL.play(rt, players),
        [family, file] => match Family::named(family.as_str()) {
            Some(family) => play_files(rt, players, family, &[file.as_str()]),
            None => Err(Fault::Usage),
        },
        _ => Err(Fault::Usage),
    }
}

/// Plays each family's scripts, and those of which one has a wrong line.
fn play_all<E, T, R>(rt: R, players: &mut Players<E, T>) -> Result<(), Fault>
where
    E: Plays,
    T: PlaysTasks,
    R: AllocGlobal + Files + Print + RandomSource + Wait + Copy + Drop,
{
    let mut ended = Ok(());
    for family in Family::ALL {
        match play_files(rt, players, family, family.files()) {
            Err(Fault::Differs) => ended = Err(Fault::Differs),
            Err(fault) => return Err(fault),
            Ok(()) => {}
        }
    }
    if !is_all_alike(Lists::ALL.play(rt, players))? {
        ended = Err(Fault::Differs);
    }
    println!(rt; "With a wrong line:")?;
    for family in Family::ALL {
        match play_files(rt, players, family, &[family.file_with_a_wrong_line()]) {
            // A wrong line that isn't seen.
            Ok(()) => ended = Err(Fault::Differs),
            Err(Fault::Differs) => {}
            Err(fault) => return Err(fault),
        }
    }
    if is_all_alike(Lists::WRONG.play(rt, players))? {
        ended = Err(Fault::Differs);
    }
    ended
}

/// Whether lists were played alike, where nothing else kept them from being played.
fn is_all_alike(ended: Result<(), Fault>) -> Result<bool, Fault> {
    match ended {
        Ok(()) => Ok(true),
        Err(Fault::Differs) => Ok(false),
        Err(fault) => Err(fault),
    }
}

/// Plays the scripts of files, one file behind the other. The error is `Differs` where one doesn't show what it has to.
fn play_files<E, T, R>(
    rt: R,
    players: &mut Players<E, T>,
    family: Family,
    files: &[&str],
) -> Result<(), Fault>
where
    E: Plays,
    T: PlaysTasks,
    R: AllocGlobal + Files + Print + RandomSource + Wait + Copy + Drop,
{
    let mut scripts = String::new(rt.alloc());
    for file in files {
        scripts.push_str(fs::read_to_string(&rt, file)?.as_str())?;
    }
    let verdict = judged(rt, players, family, scripts.as_str())?;
    verdict.print(&rt, family.name())?;
    if verdict.is_agreed() {
        Ok(())
    } else {
        Err(Fault::Differs)
    }
}
