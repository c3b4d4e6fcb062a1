//! The entries that the live rows of a heap have in an index of its case.
#![tactic(auto)]

mod gather;
mod index;
mod roots;

pub use gather::{RowEntries, row_entries};
