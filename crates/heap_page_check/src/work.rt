//! What is kept in hand from one page to the next, so that a page takes no memory of its own.
ghost use Rattle.std.specs.Prelude.{◌≡◌, [], ℕ, List, IfOk};
ghost use Rattle.heap_page_check.specs.Found.{nothing_found};
ghost use Rattle.heap_page_check.specs.Storage.{AreCells};

use crate::found::Found;
use crate::storage::PageCells;
use hot_chains::Chains;
use liveness::ItemState;
use outside::NoMemory;
use std::alloc::Global;
use varlena_attrs::AttrBuffer;

/// The memory in which the pages of a table are judged, made once for a table, with what was found of it
/// so far.
#[derive(Drop)]
pub struct Work {
    /// What was found of the table.
    pub found: Found,
    /// Which bytes of the page belong to items.
    pub(crate) cells: PageCells,
    /// The states of the page's items so far.
    pub states: Vec<ItemState>,
    /// The attributes of a tuple.
    pub attrs: AttrBuffer,
    /// The chains of the page.
    pub chains: Chains,
}

impl Work {
    /// Memory that is not in use yet, and nothing found.
    pub fn new(alloc: Global) -> Result<Work, NoMemory>
        ensures found { IfOk result (λ work. work.found ≡ nothing_found) }
        ensures states { IfOk result (λ work. work.states.items ≡ []) }
    {
        Ok(Work {
            found: Found::new(alloc),
            cells: PageCells::new(alloc)?,
            states: Vec::new(alloc),
            attrs: AttrBuffer::new(alloc),
            chains: Chains::new(alloc),
        })
    }

    /// Forgets the items of a page, for another one. What was found stays.
    pub fn clear(&mut self)
        ensures cells { (page : List ℕ) → AreCells page 0 self.new.cells }
        ensures states { self.new.states.items ≡ [] }
        ensures found { self.new.found ≡ self.old.found }
    {
        self.cells.clear();
        self.states.clear();
    }

    /// What was found.
    pub fn into_found(self) -> Found
        ensures { result ≡ self.found }
    {
        let Work { found, .. } = self;
        found
    }
}
