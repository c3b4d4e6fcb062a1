//! A bounded memory of the pages of an index that others link to.
ghost use Rattle.std.specs.Prelude.{◌≡◌, ℕ, List, IfOk, IfSome};
ghost use Rattle.bt_pages.specs.Seen.{AreOf};
ghost use Rattle.bt_pages.specs.Trees.{glance_of};

use crate::glance::Glance;
use outside::NoMemory;
use std::alloc::Global;

// Of how many blocks it is kept what they show.
const PLACES: usize = 16384;

// A block, and what it shows.
#[derive(Clone, Copy)]
pub struct SeenBlock {
    b: u32,
    glance: Glance,
}

/// What was seen of the pages of an index: at most one block at each of 16384 places, where a later one
/// takes the place of an earlier one. An index of no more blocks has a place for each.
#[derive(Drop)]
pub struct Glances {
    places: Vec<Option<SeenBlock>>,
}

impl Glances {
    /// Nothing yet. All its memory is taken here, some 500 KiB.
    pub fn new(alloc: Global) -> Result<Glances, NoMemory>
        ensures { (block : ℕ → List ℕ) → IfOk result (AreOf block) }
    {
        let mut places = Vec::with_capacity(alloc, PLACES)?;
        for _ in 0..PLACES {
            places.push(None)?;
        }
        Ok(Glances { places })
    }

    // What was seen of a block, if it is kept.
    #[inline]
    pub fn find(&self, b: u32) -> Option<Glance>
        ensures { (block : ℕ → List ℕ) → AreOf block self.now → IfSome result (λ glance. glance ≡ glance_of (block b)) }
    {
        match self.places.get(b as usize % PLACES) {
            Some(Some(seen)) if seen.b == b => Some(seen.glance),
            _ => None,
        }
    }

    // Keeps what was seen of a block.
    #[inline]
    pub fn keep(&mut self, b: u32, glance: Glance)
        ensures { (block : ℕ → List ℕ) → AreOf block self.old → glance ≡ glance_of (block b) → AreOf block self.new }
    {
        let place = b as usize % PLACES;
        if place < self.places.len() {
            self.places[place] = Some(SeenBlock { b, glance });
        }
    }
}
