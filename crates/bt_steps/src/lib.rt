//! What a visit of a search to a page of a B-tree index leads to: to the right, down, or to the entries of a
//! leaf. A page is all that is looked at, and no memory is taken.
//!
//! Source: the nbtree README of PostgreSQL, on searching and on moving right.
#![tactic(auto)]

mod inner;
mod leaf;
mod way;

pub use inner::{Step, step_on};
pub use leaf::{Place, find_in_item, find_on, is_live_leaf};
pub use way::{Sought, UpTo, Way};
