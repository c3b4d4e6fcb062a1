//! The entries of the leaves of an index, each of which meets the row that it names, if that has its key.
#![tactic(auto)]

mod ahead;
mod meet;
mod near;
mod numbers;

pub use ahead::{RowsAhead, are_far};
pub use meet::{meet_entry, meet_page, meet_read_item};
pub use near::{HeapRange, Near, glanced_tid, meet_near};
