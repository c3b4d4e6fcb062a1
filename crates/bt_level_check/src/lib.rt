//! The levels of a B-tree index, walked from the root down: which of the rules L1 to L9 the index breaks
//! first.
//!
//! Sources: PostgreSQL's `access/nbtree.h` and the nbtree README.
#![tactic(auto)]

mod block_set;
mod check;
mod course;
mod downlinks;
mod first_page;
mod judge;
mod leaf_walk;
mod levels;
mod shape;

pub use block_set::BlockSet;
pub use course::InHand;
pub use leaf_walk::LeafWalk;
pub use shape::{LevelsFound, TreeShape};
