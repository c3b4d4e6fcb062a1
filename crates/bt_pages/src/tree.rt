//! What the rules of a tree's pages need to know of its index.
use key_attrs::IndexColumns;
use rel_files::Relation;

/// An index whose pages are judged.
#[derive(Clone, Copy)]
pub struct TreeRules<'a> {
    /// Its number in the case, counted from 1.
    pub number: u16,
    /// Its columns.
    pub columns: IndexColumns<'a>,
    /// Its file.
    pub relation: &'a Relation,
}
