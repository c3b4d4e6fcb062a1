//! What a row of each catalog of a database says, and the values in it that are no plain numbers or names.
//!
//! Source: the chapter "System Catalogs" of the PostgreSQL manual, which has a section for each catalog; for
//! what an array is in memory the server's header `utils/array.h`.
#![tactic(auto)]

mod arrays;
mod catalogs;
mod element;
mod rows;

pub use arrays::{int2_vector, oid_vector, vectors_are_told};
pub use catalogs::{CatalogRows, Catalogs};
pub use element::{element_is_told, missing_element};
pub use rows::{
    AccessMethodRow, AttributeRow, ClassRow, CollationRow, DatabaseRow, IndexRow, NamespaceRow,
    OperatorClassRow, StoredMissing, TypeRow,
};
