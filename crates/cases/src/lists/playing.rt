//! Lists on the step machine and on executors, and the first that these don't play alike.

use crate::family::Family;
use crate::fault::Fault;
use crate::lists::list::{Holds, list_of_seed};
use crate::players::Players;
use crate::shown::{Shown, machine, print_text};
use call_player::PlaysTasks;
use executor_player::Plays;
use std::alloc::AllocGlobal;
use std::io;
use std::random::RandomSource;
use std::sync::Wait;

/// A family that plays lists as the step machine does.
#[derive(Clone, Copy)]
struct Road {
    family: Family,
    holds: Holds,
    /// It plays lists of an executor that is static or leaked, or of one that is neither; without this of both.
    is_static: Option<bool>,
}

const ROADS: [Road; 5] = [
    Road {
        family: Family::Solo,
        holds: Holds::All,
        is_static: None,
    },
    Road {
        family: Family::Executor,
        holds: Holds::Running,
        is_static: Some(false),
    },
    Road {
        family: Family::Static,
        holds: Holds::Running,
        is_static: Some(true),
    },
    Road {
        family: Family::Local,
        holds: Holds::Running,
        is_static: Some(false),
    },
    Road {
        family: Family::StaticLocal,
        holds: Holds::Running,
        is_static: Some(true),
    },
];

/// Lists of seeds.
#[derive(Clone, Copy)]
pub struct Lists {
    from: u64,
    /// The seed behind the last.
    to: u64,
    /// How many calls each has.
    calls: u64,
    /// How many of the last ones it lacks on the machine.
    lacks: u64,
}

/// How many lists a family plays as the step machine does.
#[derive(Drop)]
struct Alike {
    agreed: u64,
    all: u64,
    first: Option<Played>,
}

/// A list, and what both show of it.
#[derive(Drop)]
struct Played {
    seed: u64,
    script: String,
    owed: Shown,
    shown: Shown,
}

impl Lists {
    /// A thousand of fifty calls.
    pub const ALL: Lists = Lists {
        from: 0,
        to: 1_000,
        calls: 50,
        lacks: 0,
    };

    /// Two short ones, an owned one and a static one, of which the machine lacks the last call.
    pub const WRONG: Lists = Lists {
        from: 8,
        to: 10,
        calls: 12,
        lacks: 1,
    };

    /// Plays those that a family answers on it and on the step machine, for each family, and says of how many both show the same. The
    /// error is `Differs` where not of all; the first other one is printed with both texts.
    pub fn play<E, T, R>(self, rt: R, players: &mut Players<E, T>) -> Result<(), Fault>
    where
        E: Plays,
        T: PlaysTasks,
        R: AllocGlobal + Print + RandomSource + Wait + Copy + Drop,
    {
        let mut ended = Ok(());
        for road in ROADS {
            let alike = self.judged(rt, players, road)?;
            alike.print(&rt, road.family.name())?;
            if alike.first.is_some() {
                ended = Err(Fault::Differs);
            }
        }
        ended
    }

    fn judged<E: Plays, T: PlaysTasks, R: AllocGlobal + RandomSource + Wait + Copy + Drop>(
        self,
        rt: R,
        players: &mut Players<E, T>,
        road: Road,
    ) -> Result<Alike, Fault> {
        let mut alike = Alike {
            agreed: 0,
            all: 0,
            first: None,
        };
        for seed in self.from..self.to {
            let made = list_of_seed(rt.alloc(), seed, self.calls, road.holds)?;
            if road.plays(made.is_static) {
                let calls = self.calls.saturating_sub(self.lacks);
                let on_machine = list_of_seed(rt.alloc(), seed, calls, road.holds)?;
                let owed = machine(rt.alloc(), on_machine.script.as_bytes())?;
                let shown = road.family.play(rt, players, made.script.as_bytes())?;
                alike.count(Played {
                    seed,
                    script: made.script,
                    owed,
                    shown,
                });
            }
        }
        Ok(alike)
    }
}

impl Road {
    /// Whether it plays lists of an executor of this kind.
    fn plays(&self, is_static: bool) -> bool {
        match self.is_static {
            Some(kind) => kind == is_static,
            None => true,
        }
    }
}

/// Both are the same text.
fn is_same(owed: &Shown, shown: &Shown) -> bool {
    match (owed, shown) {
        (Shown::Text(owed), Shown::Text(shown)) => owed.as_slice() == shown.as_slice(),
        _ => false,
    }
}

impl Alike {
    /// A list was played, which shows both.
    fn count(&mut self, played: Played) {
        self.all = self.all.saturating_add(1);
        if is_same(&played.owed, &played.shown) {
            self.agreed = self.agreed.saturating_add(1);
        } else if self.first.is_none() {
            self.first = Some(played);
        }
    }

    /// Prints how many agree, and the first list that doesn't.
    fn print<R: Print>(&self, rt: &R, name: &str) -> io::Result<()> {
        let (agreed, all) = (self.agreed, self.all);
        println!(rt; "lists on machine and {name}: {agreed} of {all} agree")?;
        match &self.first {
            Some(played) => played.print(rt, name),
            None => Ok(()),
        }
    }
}

impl Played {
    fn print<R: Print>(&self, rt: &R, name: &str) -> io::Result<()> {
        println!(rt; "the list of seed {}:", self.seed)?;
        print_text(rt, self.script.as_bytes())?;
        println!(rt; "machine:")?;
        self.owed.print(rt)?;
        println!(rt; "{name}:")?;
        self.shown.print(rt)
    }
}
