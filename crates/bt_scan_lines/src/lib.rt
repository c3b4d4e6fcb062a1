//! The entries of a B-tree index between two bounds as lines of text, one for each entry, in either direction.
#![tactic(auto)]

mod backward;
mod forward;
mod laws;
mod lines;

pub use laws::wanted_entries_are_those_that_match;
pub use lines::{ScanLines, scan_lines};
