//! Judges one page of a heap or of a TOAST table: its header, its items, its tuples, their values, and all
//! items together.
#![tactic(auto)]

mod alone;
mod found;
mod items;
mod joint;
mod laws;
mod page;
mod quiet;
mod storage;
mod table;
mod tuple;
mod values;
mod verdict;
mod work;

pub use alone::{judge_page, lone_pages_are_judged};
pub use found::Found;
pub use items::{judge_items, push_state};
pub use laws::pages_are_judged;
pub use page::{PageInHand, judge_table_page};
pub use table::{TableKind, TableRules, ToastTable};
pub use verdict::ItemVerdict;
pub use work::Work;
