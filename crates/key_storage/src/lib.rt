//! Keys of rows among bytes: written behind one another in a form of their own, read where they lie, and compared with
//! a key at hand.
#![tactic(auto)]

mod laws;
mod read;
mod rows;
mod same;
mod values;
mod write;

pub use laws::keys_are_read_back;
pub use read::read_value;
pub use rows::{NUMBERS, RowBytes, StoredRows};
pub use same::{after_value, is_number, is_stored, same_values};
pub use values::RowValues;
pub use write::{LONGEST_VALUE, push_value, write_key};
