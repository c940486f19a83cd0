//! What no clause says: which futures a poll polls, when each is dropped, and that a receiver that gives up leaves all others as
//! they were.
mod bell;
mod children;
mod joins;
mod lists;
mod receives;
