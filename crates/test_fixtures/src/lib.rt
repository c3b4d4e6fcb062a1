//! Small tables and indexes for tests: pages that are laid item by item, files in memory of which contracts know
//! nothing, and the cases of both.
//!
//! Sources: PostgreSQL's `storage/bufpage.h`, `storage/itemid.h`, `access/htup_details.h` and `access/nbtree.h`.
#![tactic(auto)]

mod cases;
mod files;
mod heap;
mod page;
mod tables;
mod trees;

pub use cases::{case_with, indexed_case};
pub use files::UntoldFiles;
pub use heap::{HeapHead, heap_page};
pub use page::{Page, put};
pub use tables::{Kind, Table, Wrong};
pub use trees::{INNER, IndexTuple, LEAF, LONE_LEAF, TreePage, index_file, metapage, tree_page};
