//! The values of an index tuple: those of the columns of its key, and of those that the index includes.
//!
//! Sources: the sections "Database Page Layout" and "TOAST" of the PostgreSQL manual, and the
//! server's headers `access/itup.h` and `varatt.h`.
#![tactic(auto)]

mod all_types;
mod columns;
mod keyed;
mod same;

pub use columns::IndexColumns;
pub use keyed::{
    KeyFault, entry_attributes, key_attributes, key_values_are_attributes, read_entry_attributes,
    read_key_attributes,
};
pub use same::{has_stored_key, plain_first_value};
