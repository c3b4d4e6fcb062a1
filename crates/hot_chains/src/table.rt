//! The table of a page's chains, whose memory serves one page after another.
ghost use Rattle.std.specs.Prelude.{◌≡◌, ◌↔◌, ◌≤◌, length, IsTrue, OnErr, OnOk};
ghost use Rattle.hot_chains.specs.Marks.{mark};
ghost use Rattle.hot_chains.specs.Table.{AreChains, IsBlank, count_in, root_in, rule_in};

use crate::judge::find_places;
use crate::place::Place;
use crate::walk::find_roots;
use liveness::ItemState;
use outside::NoMemory;
use page_layout::Rule;
use std::alloc::Global;

/// What is known of the chains of a page: for each item the first chain rule that it breaks, and the
/// root from which it is found. It keeps its memory, so that one table serves one page after
/// another.
#[derive(Drop)]
pub struct Chains {
    // What is known of each item by itself.
    pub(crate) places: Vec<Place>,
    // For number 0 and each item, whether an item steps to it, as the places are filled in.
    pub(crate) taken: Vec<bool>,
    // For number 0 and each item the lowest root that reaches it, or 0.
    pub(crate) roots: Vec<u16>,
}

impl Chains {
    /// A table of no items. It takes no memory yet.
    #[tactic(auto, unfolding(crate::specs::Table::count_in))]
    pub fn new(alloc: Global) -> Chains
        ensures { count_in result ≡ 0 }
    {
        Chains {
            places: Vec::new(alloc),
            taken: Vec::new(alloc),
            roots: Vec::new(alloc),
        }
    }

    // Makes the table one for so many items, of which nothing is known.
    #[tactic(auto, unfolding(crate::specs::Table::count_in))]
    fn make_room(&mut self, count: usize) -> Result<(), NoMemory>
        requires { count ≤ 2042 }
        ensures ok { OnOk result (IsBlank self.new count) }
        ensures err { OnErr result (count_in self.new ≡ 0) }
    {
        self.places.clear();
        self.roots.clear();
        self.taken.clear();
        self.roots.resize(count + 1, 0)?;
        self.taken.resize(count + 1, false)?;
        let unknown = Place {
            next: 0,
            is_root: false,
            needs_root: false,
            rule: None,
        };
        self.places.resize(count, unknown)?;
        Ok(())
    }

    /// Makes the table that of a page: its block, and all its items from item 1 on, of which a page
    /// has at most 2042. It takes memory only for a page with more items than each page before. After
    /// NoMemory the table is one of no items.
    pub fn fill(&mut self, block: u32, items: &[ItemState]) -> Result<(), NoMemory>
        requires { length items.now ≤ 2042 }
        ensures ok { OnOk result (AreChains block items.now self.new) }
        ensures err { OnErr result (count_in self.new ≡ 0) }
    {
        self.make_room(items.len())?;
        find_places(block, items, &mut self.taken, &mut self.places);
        find_roots(&self.places, &mut self.roots);
        Ok(())
    }

    // The lowest root that reaches an item, 0 where there is none.
    #[inline]
    fn root_number(&self, item: u16) -> u16
        ensures { result ≡ mark self.now.roots.items item }
    {
        match self.roots.get(item as usize) {
            Some(root) => *root,
            None => 0,
        }
    }

    /// How many items the page has.
    #[inline]
    #[tactic(auto, unfolding(crate::specs::Table::count_in))]
    pub fn len(&self) -> usize
        ensures { result ≡ count_in self.now }
    {
        self.places.len()
    }

    /// Whether it is a table of no items.
    #[inline]
    #[tactic(auto, unfolding(crate::specs::Table::count_in))]
    pub fn is_empty(&self) -> bool
        ensures { IsTrue result ↔ (count_in self.now ≡ 0) }
    {
        self.places.is_empty()
    }

    /// The first of the rules H3, H14, H15 and H16 that an item breaks, or None where it breaks none
    /// of them. Items count from 1.
    ///
    /// H3: it is a redirect, and its target isn't a heap-only tuple. H14: it is a tuple, and steps to
    /// one that isn't heap-only. H15: it steps to an item that a lower item steps to. H16: it is a
    /// live heap-only tuple that no root reaches.
    #[inline]
    #[tactic(auto, unfolding(crate::specs::Table::count_in, crate::specs::Table::rule_in))]
    pub fn rule_of(&self, item: u16) -> Option<Rule>
        requires first { 1 ≤ item }
        requires last { item ≤ count_in self.now }
        ensures { result ≡ rule_in self.now item }
    {
        let place = self.places[item as usize - 1];
        if place.rule.is_none() && place.needs_root && self.root_number(item) == 0 {
            return Some(Rule::H16);
        }
        place.rule
    }

    /// The lowest-numbered root that reaches an item, or None where none does. Roots are redirects
    /// and tuples that aren't heap-only: what index entries may name. Items count from 1.
    #[inline]
    #[tactic(auto, unfolding(crate::specs::Table::count_in, crate::specs::Table::root_in))]
    pub fn root_of(&self, item: u16) -> Option<u16>
        requires first { 1 ≤ item }
        requires last { item ≤ count_in self.now }
        ensures { result ≡ root_in self.now item }
    {
        let root = self.root_number(item);
        if root == 0 { None } else { Some(root) }
    }
}
