//! The case file: which files belong to a table, and what its cluster was when it was stopped.
//!
//! A case file is a TOML document that a person or a script writes. [`read_case`] gives what it
//! says, or the first rule that it breaks with the key to mend.
#![tactic(auto)]

mod build;
mod case;
mod columns;
mod find;
mod generated;
mod indexes;
mod read;

pub use case::{Case, Column, Unique};
pub use case_rules::{CaseFault, CaseRule};
pub use read::read_case;
