//! The text of a case file, from what a table's case tells.
//!
//! [`case_text`] writes it, and the reader of case files reads it back as exactly that case.
#![tactic(auto)]

mod document;
mod fault;
mod found;
mod parts;
mod plain;
mod put;
mod text;

pub use case_file::Unique;
pub use case_rules::CaseRule;
pub use fault::CaseTextFault;
pub use parts::{ClusterPart, ColumnPart, IndexPart, KeyPart, TablePart, ToastPart};
pub use text::case_text;
