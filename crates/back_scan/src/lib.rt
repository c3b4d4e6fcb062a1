//! Searches a B-tree index between two bounds from the high one down: a descent from the fast root to the last leaf
//! that the scan reaches, and a walk along the leaves to the left, entry by entry. A page is in hand at a time, and no
//! memory is taken. And the line that prints an entry.
//!
//! Source: the nbtree README of PostgreSQL, on scans backward and on moving left.
#![tactic(auto)]

mod descent;
mod laws;
mod leaf;
mod prev;
mod spots;
mod text;
mod way;

pub use descent::{descend_last, go_left};
pub use laws::back_searches_go_in_steps;
pub use leaf::{OnLeaf, read_leaf};
pub use prev::prev_entry;
pub use text::{entry_line, push_entry_line};
