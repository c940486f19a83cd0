//! What the tests compare with, in one place each, so that a call of it is cheap to prove.
use std::fmt::Debug;
use std::process::Abort;

/// The two are equal in this row.
pub fn same<R: Abort, T: Drop + PartialEq + Debug>(rt: &R, it: T, want: T, row: usize) {
    assert_eq!(rt; it, want, "row {row}");
}

/// It is so in this row.
pub fn holds<R: Abort>(rt: &R, it: bool, row: usize) {
    assert!(rt; it, "row {row}");
}
