//! Chains of versions on one heap page: which items lead to which, from where index entries find
//! them, and the rules H3 and H14 to H16.
//!
//! An update that changes no indexed column leaves the new version on the page of the old one,
//! without index entries of its own. Index entries name the first version of such a chain, or the
//! redirect that took its place; all others are found from there.
//!
//! Source: PostgreSQL's `access/heap/README.HOT`, `heap_get_root_tuples` in `pruneheap.c`, and
//! `heap_hot_search_buffer` in `heapam.c`.
#![tactic(auto)]

ghost use Rattle.std.specs.Prelude.{◌≤◌, length, IfOk};
ghost use Rattle.hot_chains.specs.Table.{AreChains};

mod items;
mod judge;
mod laws;
mod place;
mod table;
mod walk;

pub use laws::{
    has_no_chains, live_tuples_have_one_root, pages_without_chains, roots_reach_one_live_tuple,
    tests_are_sentences,
};
use liveness::ItemState;
use outside::NoMemory;
use std::alloc::Global;
pub use table::Chains;

/// The chains of a page: its block, and all its items from item 1 on, of which a page has at most
/// 2042. For one page after another, fill one table again and again.
pub fn chains(alloc: Global, block: u32, items: &[ItemState]) -> Result<Chains, NoMemory>
    requires { length items.now ≤ 2042 }
    ensures { IfOk result (λ chains. AreChains block items.now chains) }
{
    let mut table = Chains::new(alloc);
    table.fill(block, items)?;
    Ok(table)
}
