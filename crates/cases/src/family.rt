//! The families of scripts: what plays them, and where they lie.

use crate::players::Players;
use crate::shown::{Shown, machine, shown_by_executor, shown_by_queue, shown_by_tasks};
use call_player::{PlaysTasks, play_exclusive, play_shared};
use executor_player::Plays;
use script_player::{play_local, play_solo};
use std::alloc::{AllocError, AllocGlobal};
use std::random::RandomSource;
use std::sync::Wait;

/// What plays a script.
#[derive(Clone, Copy)]
pub enum Family {
    /// The step machine.
    Machine,
    /// A running executor.
    Executor,
    /// A running executor that is static, or that a script leaks.
    Static,
    /// A running executor of one thread.
    Local,
    /// A running executor of one thread that is static, or that a script leaks.
    StaticLocal,
    /// An executor of one owner, of either kind.
    Solo,
    /// A queue that threads share.
    Queue,
    /// The queue of one owner.
    Exclusive,
    /// Tasks that threads share.
    Task,
    /// Tasks of one owner.
    LocalTask,
}

impl Family {
    /// All of them, in the order in which they are played.
    pub const ALL: [Family; 10] = [
        Family::Machine,
        Family::Executor,
        Family::Static,
        Family::Local,
        Family::StaticLocal,
        Family::Solo,
        Family::Queue,
        Family::Exclusive,
        Family::Task,
        Family::LocalTask,
    ];

    /// The name that an argument and a line of the output have.
    pub fn name(self) -> &'static str {
        match self {
            Family::Machine => "machine",
            Family::Executor => "executor",
            Family::Static => "static",
            Family::Local => "local",
            Family::StaticLocal => "static-local",
            Family::Solo => "solo",
            Family::Queue => "queue",
            Family::Exclusive => "exclusive",
            Family::Task => "task",
            Family::LocalTask => "local-task",
        }
    }

    /// The files of `data/` with its scripts. Families share some.
    pub fn files(self) -> &'static [&'static str] {
        match self {
            Family::Machine => &[
                "calls.txt",
                "steps.txt",
                "static.txt",
                "static-steps.txt",
                "leak.txt",
                "leak-steps.txt",
                "refusals.txt",
                "nested.txt",
                "urgent.txt",
                "urgent-calls.txt",
                "urgent-static.txt",
                "refused-calls.txt",
                "refused-static.txt",
                "nested-calls.txt",
                "worked.txt",
                "worked-calls.txt",
                "worked-static.txt",
            ],
            Family::Executor | Family::Local => &[
                "calls.txt",
                "stops.txt",
                "urgent-calls.txt",
                "refused-calls.txt",
                "worked-calls.txt",
            ],
            Family::Static | Family::StaticLocal => &[
                "static.txt",
                "leak.txt",
                "urgent-static.txt",
                "refused-static.txt",
                "worked-static.txt",
            ],
            Family::Solo => &[
                "calls.txt",
                "stops.txt",
                "static.txt",
                "leak.txt",
                "urgent-calls.txt",
                "urgent-static.txt",
                "refused-calls.txt",
                "refused-static.txt",
                "nested-calls.txt",
                "worked-calls.txt",
                "worked-static.txt",
            ],
            Family::Queue | Family::Exclusive => &["queue.txt"],
            Family::Task | Family::LocalTask => &["task.txt"],
        }
    }

    /// The file of `data/` with a few scripts of it, of which one has a wrong line.
    pub fn file_with_a_wrong_line(self) -> &'static str {
        match self {
            Family::Machine => "wrong-machine.txt",
            Family::Executor | Family::Local | Family::Solo => "wrong-executor.txt",
            Family::Static | Family::StaticLocal => "wrong-static.txt",
            Family::Queue | Family::Exclusive => "wrong-queue.txt",
            Family::Task | Family::LocalTask => "wrong-task.txt",
        }
    }

    /// The family of this name.
    pub fn named(name: &str) -> Option<Family> {
        Family::ALL.into_iter().find(|family| family.name() == name)
    }

    /// What it shows of a script, by the one of these players that plays it. The error is a want of memory.
    pub fn play<E: Plays, T: PlaysTasks, R: AllocGlobal + RandomSource + Wait + Copy + Drop>(
        self,
        rt: R,
        players: &mut Players<E, T>,
        script: &[u8],
    ) -> Result<Shown, AllocError> {
        match self {
            Family::Machine => machine(rt.alloc(), script),
            Family::Executor => shown_by_executor(players.executors.play(script)),
            Family::Static => shown_by_executor(players.executors.play(script)),
            Family::Local | Family::StaticLocal => {
                shown_by_executor(play_local(rt, rt.alloc(), script))
            }
            Family::Solo => shown_by_executor(play_solo(rt, rt.alloc(), script)),
            Family::Queue => shown_by_queue(play_shared(rt, rt.alloc(), script)),
            Family::Exclusive => shown_by_queue(play_exclusive(rt.alloc(), script)),
            Family::Task => shown_by_tasks(players.tasks.play(script)),
            Family::LocalTask => shown_by_tasks(call_player::play_local(rt.alloc(), script)),
        }
    }
}
