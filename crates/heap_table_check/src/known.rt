//! What is known of the blocks of a table once they are judged.
ghost use Rattle.std.specs.Prelude.{◌≡◌, ◌+◌, ℕ, List, true, OnOk};
ghost use Rattle.page_layout.specs.View.{page_bytes};
ghost use Rattle.heap_page_check.specs.Quiet.{IsPlain};
ghost use Rattle.heap_page_check.specs.Table.{Table};

use heap_targets::{RootSet, set_tells_of_pages};
use outside::NoMemory;
use page_layout::{PageKind, PageView};
use std::alloc::Global;

// A set takes fewer blocks. A table that is judged has no more than 4194304.
const MAX_BLOCKS: usize = 0x1_0000_0000;

/// What is known of the first blocks of a table: the line pointers that an index entry may name, and which pages are
/// plain.
#[derive(Drop)]
pub(crate) struct KnownBlocks {
    pub(crate) targets: RootSet,
    pub(crate) plain: Vec<bool>,
}

impl KnownBlocks {
    ghost use Rattle.heap_table_check.specs.Known.{TellsOfBlocks};

    /// Of no block yet. It takes no memory.
    pub(crate) fn new(alloc: Global) -> KnownBlocks
        ensures { (table : Table) (pages : ℕ → List ℕ) → TellsOfBlocks table pages 0 result }
    {
        KnownBlocks {
            targets: RootSet::new(alloc),
            plain: Vec::new(alloc),
        }
    }

    /// Adds the next block: whether its page is plain, and its line pointers where it breaks no rule of its own. Behind
    /// one that does, nothing is told of line pointers.
    pub(crate) fn add(&mut self, page: PageView<'_>, plain: bool) -> Result<(), NoMemory>
        ensures { (table : Table) (pages : ℕ → List ℕ) (n : ℕ) → pages n ≡ page_bytes page.entry
            → (plain ≡ true → IsPlain table (pages n)) → TellsOfBlocks table pages n self.old
            → OnOk result (TellsOfBlocks table pages (n + 1) self.new) }
    {
        set_tells_of_pages();
        if self.targets.blocks() >= MAX_BLOCKS {
            return Err(NoMemory);
        }
        self.plain.push(plain)?;
        if page.page_rule(PageKind::Heap).is_none() {
            self.targets.add_page(page)?;
        }
        Ok(())
    }
}
