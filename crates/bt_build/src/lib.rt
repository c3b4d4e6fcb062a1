//! The file of a B-tree index, built from its entries.
#![tactic(auto)]

mod bodies;
mod build;
mod entries;
mod fault;
mod groups;
mod laws;
mod laying;
mod levels;
mod order;
mod pages;
mod paging;
mod separators;
mod source;

pub use build::{BuiltTree, MAX_BLOCKS, build_index};
pub use entries::EntryList;
pub use fault::IndexFault;
pub use laws::entries_in_order_are_sorted;
