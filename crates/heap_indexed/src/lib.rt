//! A heap and an index of it together: each live tuple has an entry in the index under its own key (X1, U6), each entry
//! of the index names what it may name in the heap (X2), and in a unique index no live tuple has the key of another
//! (X3).
//!
//! There are two ways to tell. Rows are looked up one by one ([`check_indexed`]), or the rows of a range of blocks are
//! kept and the entries of the index meet them ([`meet_indexes`]). [`check_indexes`] takes the one that is faster for
//! the heap's size.
#![tactic(auto)]

mod check;
mod check_all;
mod meeting;
mod ranges;
mod work;

pub use check::check_indexed;
pub use check_all::{IndexesMet, check_indexes, meet_indexes};
