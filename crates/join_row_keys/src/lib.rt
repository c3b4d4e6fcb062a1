//! The values that the rows of a heap have in an index of it, as a cursor over the rows lends them.
#![tactic(auto)]

mod joined;
mod keys;
mod reader;

pub use joined::{IndexedHeap, IndexedTable};
pub use keys::{KeyedHeap, columns_of};
pub use reader::RowReader;
