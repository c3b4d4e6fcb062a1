//! What is judged together.

use bt_levels::SoundTree;
use case_file::Case;
use heap_table_check::SoundHeap;

/// A heap and an index of it, in which nothing was found, and the case that both are of.
#[derive(Clone, Copy)]
pub struct IndexedHeap<'a> {
    pub case: &'a Case,
    pub heap: &'a SoundHeap,
    pub tree: &'a SoundTree,
}

/// The heap of a case and indexes of it, in all of which nothing was found.
#[derive(Clone, Copy)]
pub struct IndexedTable<'a> {
    pub case: &'a Case,
    pub heap: &'a SoundHeap,
    pub trees: &'a [SoundTree],
}
