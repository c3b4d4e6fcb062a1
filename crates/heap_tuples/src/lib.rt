//! Heap tuples: where one lies on its page, and its attributes, for whom the crates below know no
//! header (`varlena_attrs`) or no attributes (`tuple_head`).
//!
//! Sources: the section "Database Page Layout" of the PostgreSQL manual, and the server's header
//! `access/htup_details.h`.
#![tactic(auto)]

mod attributes;
mod places;

pub use attributes::{are_inline, read_tuple, try_read_tuple, tuple_columns};
pub use places::{tuple_at, tuple_in};
