//! The files of a small table with two indexes, built in memory from a seed.
#![tactic(auto)]

mod build;
mod fault;
mod laws;
mod rows;
mod table;
mod trees;

pub use build::{BuiltCase, MAX_ROWS, build_case};
pub use fault::BuildFault;
pub use laws::{built_files_are_held, entries_are_in_order, generated_tuples_read_back};
pub use rows::Row;
