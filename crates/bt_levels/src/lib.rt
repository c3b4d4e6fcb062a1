//! Judges the file of a B-tree index: its segments, its metapage and its pages, one by one.
//!
//! Sources: PostgreSQL's `access/nbtree.h` and the nbtree README.
#![tactic(auto)]

mod check;
mod files;
mod judge;
mod laws;
mod meta;
mod sound;
mod window;

pub use check::check_tree;
pub use files::TreeFile;
pub use laws::{indexes_are_judged, levels_tile_the_keys, sound_trees_are_searchable};
pub use sound::SoundTree;
