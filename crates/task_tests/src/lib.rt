//! Tests of the task that threads share, against what `async_task` gives its users, where no script of `cases` shows it. A crate of
//! its own so that they are proved beside that, and that only once.
#![tactic(auto)]

#[cfg(test)]
mod calls;
#[cfg(test)]
mod parts;
#[cfg(test)]
mod ready;
#[cfg(test)]
mod refusals;
#[cfg(test)]
mod stored;
#[cfg(test)]
mod threads;
#[cfg(test)]
mod values;
