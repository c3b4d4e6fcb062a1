//! What the pages of an index mean to a search: the way from bytes to the tree of `laws_search`, and the
//! rules of single pages as sentences over their bytes.
//!
//! Sources: PostgreSQL's `access/nbtree.h` and the nbtree README.
#![tactic(auto)]

mod laws;
mod order;
mod places;

pub use laws::{entries_are_gathered, kept_rules_make_a_sound_image};
pub use order::{breaks_high_key, breaks_order};
pub use places::{ItemPlace, ItemPlaces, first_data, has_high_key, spot_of};
