//! The keys of a case file: which there are and where they stand, the rules C1 to C7 on them, and what is read of the
//! tables of a document, whatever it says.
//!
//! [`breaks`] tests one rule at one spot of a document, and [`all_spots`] gives its spots in the order in which they
//! are asked. The crate `case_file` makes a case of a document that breaks none.
#![tactic(auto)]

mod fault;
mod keys;
mod rules;
mod spots;
mod tables;
mod texts;

pub use fault::{CaseFault, CaseRule};
pub use keys::{Key, Place};
pub use rules::{at_least_one, breaks, has_name, has_type, is_key_column, key_type};
pub use spots::{Spot, all_spots};
pub use tables::{
    copied, flag_in, has, number_at, number_in, string_in, table_at, tables_at, text_at, text_in,
    values_at,
};
pub use texts::spot_text;
