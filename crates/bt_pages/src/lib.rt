//! The pages of a B-tree index one by one: which rules a page and its items break, by themselves, with
//! each other, and with the pages that they link to.
//!
//! Sources: PostgreSQL's `access/nbtree.h` and the nbtree README.
#![tactic(auto)]

mod alone;
mod disorder;
mod glance;
mod glances;
mod high_key;
mod items;
mod laws;
mod look;
mod neighbours;
mod order;
mod page;
mod pass;
mod quiet;
mod seen;
mod tree;
mod turns;

pub use glance::Glance;
pub use laws::blocks_are_judged;
pub use look::glance_at;
pub use page::{add_found, judge_page};
pub use seen::SeenTree;
pub use tree::TreeRules;
