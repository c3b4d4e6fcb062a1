//! How a test ends where something isn't as expected.
use page_layout::Rule;
use std::fmt::Debug;
use std::process::Abort;

/// Ends the test unless the two are the same. `row` says where the test stands.
pub fn same<T: PartialEq + Debug>(rt: &impl Abort, got: &T, want: &T, row: u32) {
    assert_eq!(rt; *got, *want, "row {row}");
}

/// Ends the test unless something holds.
pub fn holds(rt: &impl Abort, fact: bool, row: u32) {
    assert!(rt; fact, "row {row}");
}

/// The code of a rule, and no text where none is broken.
pub fn code_of(rule: Option<Rule>) -> &'static str {
    match rule {
        Some(rule) => rule.code(),
        None => "",
    }
}
