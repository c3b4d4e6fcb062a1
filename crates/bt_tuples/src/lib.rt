//! The items of a B-tree page: separators with their downlinks, and the entries of leaves, where they
//! lie; and the rules that one item may break.
//!
//! Sources: PostgreSQL's `access/itup.h` and `access/nbtree.h`, and the nbtree README's notes on
//! suffix truncation and on deduplication.
#![tactic(auto)]

mod entries;
mod forms;
mod heads;
mod items;
mod keys;
mod laws;
mod tids;
mod tuples;

pub use entries::{PlainEntry, plain_entry, plain_entry_prefix};
pub use items::{ItemFault, Spot3, TreeItem, tree_item};
pub use keys::ItemKeys;
pub use laws::item_rules_are_exact;
pub use tids::TidList;
