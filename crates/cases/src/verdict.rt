//! How many scripts of a text show what they have to, and the first that doesn't.

use crate::case::Case;
use crate::family::Family;
use crate::fault::Fault;
use crate::players::Players;
use crate::shown::{Shown, print_text};
use call_player::PlaysTasks;
use executor_player::Plays;
use std::alloc::AllocGlobal;
use std::io;
use std::random::RandomSource;
use std::sync::Wait;

/// What the scripts of one text came to.
#[derive(Drop)]
pub struct Verdict<'a> {
    pub agreed: u64,
    pub all: u64,
    /// The first that doesn't show what it has to.
    pub first: Option<Difference<'a>>,
}

/// A script that shows something else than it has to.
#[derive(Drop)]
pub struct Difference<'a> {
    /// Which one of its file, from 1 on.
    number: u64,
    case: Case<'a>,
    shown: Shown,
}

/// Plays the cases of a text, one after the other. The errors are `NoMemory`, and `NoCase` where the text goes on with what is no
/// case.
pub fn judged<'a, E: Plays, T: PlaysTasks, R: AllocGlobal + RandomSource + Wait + Copy + Drop>(
    rt: R,
    players: &mut Players<E, T>,
    family: Family,
    text: &'a str,
) -> Result<Verdict<'a>, Fault> {
    let mut verdict = Verdict {
        agreed: 0,
        all: 0,
        first: None,
    };
    let mut rest = text;
    for number in 0..text.len() as u64 {
        if rest.is_empty() {
            break;
        }
        let Some((case, more)) = Case::cut_from(rest) else {
            return Err(Fault::NoCase(number));
        };
        let shown = family.play(rt, players, case.script)?;
        verdict.count(number.saturating_add(1), case, shown);
        rest = more;
    }
    Ok(verdict)
}

impl<'a> Verdict<'a> {
    /// Notes what a case has shown.
    fn count(&mut self, number: u64, case: Case<'a>, shown: Shown) {
        self.all = number;
        if case.is_met_by(&shown) {
            self.agreed = self.agreed.saturating_add(1);
        } else if self.first.is_none() {
            self.first = Some(Difference {
                number,
                case,
                shown,
            });
        }
    }

    /// Prints the line of a family, and the first script that differs, with both texts.
    pub fn print<R: Print>(&self, rt: &R, label: &str) -> io::Result<()> {
        let (agreed, all) = (self.agreed, self.all);
        println!(rt; "{label}: {agreed} of {all} agree")?;
        match &self.first {
            Some(difference) => difference.print(rt),
            None => Ok(()),
        }
    }

    pub fn is_agreed(&self) -> bool {
        self.agreed == self.all
    }
}

impl<'a> Difference<'a> {
    fn print<R: Print>(&self, rt: &R) -> io::Result<()> {
        let number = self.number;
        println!(rt; "script {number}:")?;
        print_text(rt, self.case.script)?;
        println!(rt; "owed:")?;
        match self.case.bad_line {
            0 => print_text(rt, self.case.text)?,
            line => println!(rt; "line {line}: bad line")?,
        }
        println!(rt; "shown:")?;
        self.shown.print(rt)
    }
}
