//! Rows of a range of heap blocks, each by its root and its key, to be met by the entries of an index in whatever order
//! these come.
#![tactic(auto)]

mod block_rows;
mod blocks;
mod laws;
mod rows;
mod slots;

pub use laws::met_are_those_with_an_entry;
pub use rows::RowSlots;
pub use slots::BegunRow;
