//! The set of the line pointers of a heap that an index entry may name. An entry names one by its TID: a
//! tuple that isn't heap-only, a redirect, or a dead line pointer, behind which the tuple is gone and the
//! entry not yet (rule X2).
//!
//! Sources: PostgreSQL's `access/heapam.h` and `storage/itemid.h`, the manual's section "Database Page
//! Layout", and the server's `src/backend/access/heap/README.HOT`.
#![tactic(auto)]

mod items;
mod laws;
mod set;

pub use laws::set_tells_of_pages;
pub use set::RootSet;
