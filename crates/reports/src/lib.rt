//! What the program has to say: findings and their places, the text of a report, and the text of one
//! page.
#![tactic(auto)]

mod fields;
mod ghost_list;
mod heap_page;
mod long_list;
mod page_parts;
mod places;
mod report;
mod texts;
mod tree_page;

pub use fields::push_tid;
pub use heap_page::show_heap;
pub use places::{Finding, Place, Reason, Rel, UnjudgedPlace, Verdict};
pub use report::Report;
pub use tree_page::show_tree;
