//! The bytes of an index that is built from its entries, and the law that they are a sound index of exactly
//! these entries.
//!
//! The crate has no code, only definitions and proofs. Its functions do nothing; their contracts are the
//! theorems, and a caller has them by calling.
#![tactic(auto)]

mod files;
mod items;
mod pages;
mod trees;

pub use files::{
    built_files_are_sound, built_files_keep_the_rules, index_trees_may_be_laid, items_may_be_laid,
    separators_may_be_laid,
};
pub use items::{laid_items_mean, laid_separators_mean};
pub use pages::laid_pages_mean;
pub use trees::built_bytes_mean;
