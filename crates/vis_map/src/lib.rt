//! The visibility map: which heap blocks it calls all-visible and all-frozen, and whether that is so.
//!
//! Source: the manual's section "Visibility Map", PostgreSQL's `access/visibilitymap.h` and
//! `visibilitymap.c`.
#![tactic(auto)]

mod bits;
mod rules;

pub use bits::{BLOCKS_PER_MAP_PAGE, MapBits, bits_in, map_page_of, map_pages_for};
pub use rules::map_rule;
