//! How a test ends where something isn't as expected.
use std::fmt::Debug;
use std::process::Abort;

/// Ends the test unless the two are the same. `row` says where the test stands.
pub fn same<T: PartialEq + Debug>(rt: &impl Abort, got: &T, want: &T, row: u32) {
    assert_eq!(rt; *got, *want, "row {row}");
}

/// Ends the test unless something holds.
pub fn holds(rt: &impl Abort, fact: bool, row: u32) {
    assert!(rt; fact, "row {row}");
}
