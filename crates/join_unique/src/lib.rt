//! Equal keys in a unique index (rule X3): the entries of the index come one after another, so that those with one key
//! stand side by side, and where two of them may be of live rows, the rows are looked at.
#![tactic(auto)]

mod check;
mod group;
mod grouping;
mod roots;

pub use check::{check_duplicates, is_unique};
