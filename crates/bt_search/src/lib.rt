//! Searches a B-tree index between two bounds: a descent from the fast root to a leaf, and a walk along
//! the leaves, entry by entry. A page is in hand at a time, and no memory is taken. And look-ups of one entry
//! each, through a cache of pages, since many look at the same pages.
//!
//! Source: the nbtree README of PostgreSQL, on searching and on moving right.
#![tactic(auto)]

mod cache;
mod descent;
mod entry;
mod included;
mod item;
mod kept;
mod laws;
mod leaf;
mod look_up;
mod next;
mod spot;

pub use cache::PageCache;
pub use descent::{Search, arrive, descend, look_at};
pub use entry::entry_at;
pub use included::has_included;
pub use item::{Fate, ItemFate, ScanEnd, entries_at, fate_at, tid_on};
pub use laws::searches_go_in_steps;
pub use leaf::{OnLeaf, read_leaf};
pub use look_up::{entries_have_a_leaf, find, probe, spots_are_of_entries, ways_are_short};
pub use next::next_entry;
pub use spot::{EntryRef, Spot, Visits};
