//! The metapage of a B-tree index, the special space of its pages, and the heads of its tuples.
//!
//! Source: PostgreSQL's `access/nbtree.h` and `access/itup.h`, and the nbtree README.
#![tactic(auto)]

mod layout;
mod readers;
mod records;

pub use layout::{
    BT_IS_POSTING, BT_OFFSET_LIMIT, BT_PIVOT_HEAP_TID_ATTR, BTP_LEAF, BTP_ROOT, BTREE_MAGIC,
    BTREE_VERSION, INDEX_ALT_TID_MASK, INDEX_NULL_MASK, INDEX_SIZE_LIMIT, INDEX_VAR_MASK, TID_LEN,
    TREE_SPECIAL,
};
pub use readers::{is_idle, meta, meta_rule, opaque, tree_head};
pub use records::{HeadKind, Meta, Opaque, TreeHead};
