//! The roots of the items of a page.
ghost use Rattle.std.specs.Prelude.{◌≡◌, ℕ, ◌≤◌, [], List, length, OnOk};
ghost use Rattle.liveness.specs.declared.states.ItemState.{ItemState as State};
ghost use Rattle.hot_chains.specs.Quiet.{HasNoChains};
ghost use Rattle.heap_rows.specs.Roots.{root_item};

use hot_chains::{Chains, has_no_chains, pages_without_chains};
use liveness::ItemState;
use outside::NoMemory;
use std::alloc::Global;

/// From which root each item of a page is found. Most pages have no chain, so that each of their live
/// tuples is its own root: for these no table is made. It keeps its memory, so that it serves one page
/// after another.
#[derive(Drop)]
pub struct Roots {
    // The chains of the page, where it has some.
    chains: Chains,
    has_chains: bool,
}

impl Roots {
    ghost use Rattle.heap_rows.specs.Roots.{AreRoots};

    /// Of no page yet: none of an item. It takes no memory.
    pub fn new(alloc: Global) -> Roots
        ensures { (block : ℕ) → AreRoots block [] result }
    {
        Roots {
            chains: Chains::new(alloc),
            has_chains: false,
        }
    }

    /// Whether the page has chains: else each live tuple of it is its own root.
    #[inline]
    pub fn has_chains(&self) -> bool
        ensures { result ≡ self.now.has_chains }
    {
        self.has_chains
    }

    /// For a page without chains.
    pub fn clear(&mut self)
        ensures { (block : ℕ) (items : List State) → HasNoChains items → AreRoots block items self.new }
    {
        self.has_chains = false;
    }

    /// Finds the roots of a page, by its block and the states of its items. `NoMemory` comes only where the page has
    /// chains, and their table finds no room.
    pub fn find(&mut self, block: u32, items: &[ItemState]) -> Result<(), NoMemory>
        requires { length items.now ≤ 2042 }
        ensures { OnOk result (AreRoots block items.now self.new) }
    {
        self.has_chains = !has_no_chains(items);
        if self.has_chains {
            self.chains.fill(block, items)?;
        }
        Ok(())
    }

    /// The lowest root from which an item is found, or the item itself where there is none, which can't
    /// be of a live tuple of a sound heap.
    #[tactic(auto, unfolding(hot_chains::specs::Table::root_in))]
    pub fn root_of(&self, item: u16) -> u16
        requires { 1 ≤ item }
        ensures root { (block : ℕ) (items : List State) → item ≤ length items → AreRoots block items self.now
            → result ≡ root_item block items item }
        ensures some { 1 ≤ result }
    {
        pages_without_chains();
        if !self.has_chains || self.chains.len() < item as usize {
            return item;
        }
        match self.chains.root_of(item) {
            Some(root) => root,
            None => item,
        }
    }
}
