//! Keys that are apart: whether no two entries of an index have the same values. It is told leaf by leaf, of which each
//! is looked at by itself and in whatever order: no two entries that stand side by side on it have the same values, and
//! what is left of it is below its high key by the values alone.
//!
//! Source: the nbtree README, on high keys and on suffix truncation.
#![tactic(auto)]

mod differ;
mod laws;
mod rising;

pub use differ::is_page_apart;
pub use laws::apart_leaves_have_no_equal_keys;
pub use rising::Rise;
