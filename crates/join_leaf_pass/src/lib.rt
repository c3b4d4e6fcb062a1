//! A pass over the leaves of an index: which entries name what no entry may name, told by the set of the heap's line
//! pointers that entries may name (rule X2), which rows of those that are kept have an entry, and whether no two
//! entries have the same values. Later passes look at those leaves alone that may name rows of their range. No page of
//! the heap is read for an entry.
//!
//! Source: PostgreSQL's `src/backend/access/heap/README.HOT`, on what index entries point to.
#![tactic(auto)]

mod check;
mod leaf;
mod some;
mod spans;

pub use check::Leaves;
pub use some::meet_some;
pub use spans::Spans;
