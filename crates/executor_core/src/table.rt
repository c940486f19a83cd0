//! The table of the step machine, whose futures are numbers: `Places` of `executor_parts`, and where the entry of each
//! future is.
mod entries;

pub use entries::Entries;
