//! The steps of a call on a queue, as pure functions of where the call stands and of the word that it found.
//!
//! A step loads one word, exchanges one word, or is done in a place that is the call's alone. A call's turn says what it
//! does next, and each kind of call that comes to several has a type for its own. Each form of the queue takes its changes
//! from here: the one for one owner works on plain words.

pub mod bounded;
pub mod single;
pub mod unbounded;
