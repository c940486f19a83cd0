//! An order that fails, as it was found and as short as it was made.
ghost use Rattle.orders.specs.declared.failure.End.TheVariants.{Right};
ghost use Rattle.orders.specs.Ends.{end_of};
ghost use Rattle.std.specs.Prelude.{◌≡◌, ◌≢◌, ◌≤◌, length};

use crate::calls::Extra;
use crate::order::Order;
use crate::script::script;
use std::alloc::{AllocError, Global};
use std::fmt;

/// How an order ended.
#[derive(Clone, Copy, PartialEq, Eq, Drop)]
pub enum End {
    /// No call may come any more, and what stands there is right.
    Right,
    /// No call may come any more, and what stands there isn't right.
    Wrong,
    /// As many calls were made as an order may have, and one more may come: what stands there says nothing.
    Cut,
}

/// An order that fails. It is printed as its seed, and then the calls of the short form, one a line.
#[derive(Drop)]
pub struct Failure {
    /// Its seed; of `every_failure`, how many orders were played before it.
    pub number: u64,
    /// How it ended, and how the short form ends.
    pub end: End,
    /// Which calls beside those of every executor it was allowed.
    pub extra: Extra,
    /// The order as it was found.
    pub found: Order,
    /// An order that fails too, with no more calls. All that could be left out alone is left out.
    pub short: Order,
    ghost failed: { end ≢ Right },
    ghost shorter: { length short.made.items ≤ length found.made.items },
}

impl End {
    /// Of an order by whether it is over, and by what the check says then.
    pub(crate) fn of(is_over: bool, is_right: bool) -> Self
        ensures { result ≡ end_of is_over is_right }
    {
        if !is_over {
            End::Cut
        } else if is_right {
            End::Right
        } else {
            End::Wrong
        }
    }
}

impl Failure {
    /// The order as it was found, as a script that `taskrun sim` plays: futures that are ready, wait and are woken when these were.
    /// None, if there are more than 26 futures, or a future has more than eight polls.
    ///
    /// Steps beside have no line, and a refused copy shows no more. An output that isn't a number up to 1,000,000 stands there as 0.
    /// It takes memory.
    pub fn script(&self, alloc: Global) -> Result<Option<String>, AllocError> {
        script(alloc, &self.found)
    }

    /// The same of the short form.
    pub fn short_script(&self, alloc: Global) -> Result<Option<String>, AllocError> {
        script(alloc, &self.short)
    }
}

impl fmt::Display for Failure {
    fn fmt<W: fmt::Write>(&self, f: &mut fmt::Formatter<W>) -> fmt::Result {
        write!(f, "seed {}: ", self.number)?;
        match self.end {
            End::Right => write!(f, "no failure"),
            End::Wrong => write!(f, "the end is wrong"),
            End::Cut => write!(f, "no end"),
        }?;
        write!(f, " after {} calls", self.short.made.len())?;
        for made in &self.short.made {
            write!(f, "\n{made}")?;
        }
        Ok(())
    }
}
