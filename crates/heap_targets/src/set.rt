//! The set, kept as one bit for each line pointer.
ghost use Rattle.std.specs.Prelude.{◌≡◌, ◌+◌, ◌*◌, ◌<◌, ◌≤◌, ◌^◌, ◌++◌, ◌∷◌, [], None, length, OnErr, OnOk};
ghost use Rattle.page_layout.specs.declared.page.PageKind.TheVariants.{Heap};
ghost use Rattle.page_layout.specs.Page.{page_rule_of};
ghost use Rattle.page_layout.specs.View.{page_bytes};
ghost use Rattle.heap_targets.specs.Packed.{AreSameStarts, IsPacked, blocks_of, count_in, end_of};
ghost use Rattle.heap_targets.specs.Targets.{is_in, targets_on};

use crate::items::set_targets;
use key_orders::Tid;
use outside::NoMemory;
use page_layout::{PageView, is_set, make_room};
use std::alloc::Global;
use std::marker::Model;

/// The set of the line pointers of a heap's first blocks that an index entry may name. Contracts see for
/// each block, from block 0 on, the truth values of its items, from item 1 on (`targets_on`).
///
/// It takes a bit for each line pointer and eight bytes for each block: 4.4 MB for 16384 blocks of 2042
/// items, and less than three times as much while it grows.
#[derive(Drop)]
pub struct RootSet {
    // For each block the place of its first bit, and last the place behind the last block's bits. It is
    // empty, or a lone 0, while there is no block.
    starts: Vec<usize>,
    // A bit for each item, 1 where an entry may name it, block after block.
    bits: Vec<u8>,
}

impl Model for RootSet {
    ghost use Rattle.std.specs.Prelude.{Bool, List};
    ghost use Rattle.heap_targets.specs.Packed.{IsPacked, blocks_of};

    ghost Value = { List (List Bool) };

    ghost view = { λ set. blocks_of set.starts.items set.bits.items };

    ghost invariant = { λ set. IsPacked set.starts.items set.bits.items };
}

impl RootSet {
    /// The set of no blocks. It takes no memory yet.
    pub fn new(alloc: Global) -> RootSet
        ensures { result ≡ [] }
    {
        RootSet {
            starts: Vec::new(alloc),
            bits: Vec::new(alloc),
        }
    }

    /// Adds the line pointers of the next block: of a page that breaks none of the rules of a heap's page
    /// (P1 to P4), whatever its line pointers and tuples are. A new page has none. After `NoMemory` the set
    /// is as it was. A set takes fewer than 2^32 blocks.
    pub fn add_page(&mut self, page: PageView<'_>) -> Result<(), NoMemory>
        requires page { page_rule_of Heap (page_bytes page) ≡ None }
        requires few { length self.old < 2 ^ 32 }
        ensures ok { OnOk result (self.new ≡ self.old ++ targets_on (page_bytes page.entry) ∷ []) }
        ensures err { OnErr result (self.new ≡ self.old) }
    {
        begin(&mut self.starts)?;
        add_values(&mut self.starts, &mut self.bits, page)
    }

    /// How many blocks the set has: blocks 0 to one below this number.
    pub fn blocks(&self) -> usize
        ensures { result ≡ length self.now }
    {
        self.starts.len().saturating_sub(1)
    }

    /// Whether an index entry may name this line pointer: it is one of a block of the set, and neither
    /// unused nor that of a heap-only tuple (rule X2).
    #[inline]
    pub fn has(&self, tid: Tid) -> bool
        ensures { result ≡ is_in self.now tid }
    {
        has_value(&self.starts, &self.bits, tid)
    }
}

// Enters the start of block 0, where there is none yet.
fn begin(starts: &mut Vec<usize>) -> Result<(), NoMemory>
    ensures begun { OnOk result (1 ≤ length starts.new.items) }
    ensures same { AreSameStarts starts.old.items starts.new.items }
{
    if starts.is_empty() {
        starts.push(0)?;
    }
    Ok(())
}

// The end of the last block, where the next one begins.
#[tactic(auto, unfolding(crate::specs::Packed::end_of))]
fn end_of(starts: &[usize]) -> usize
    requires { 1 ≤ length starts.now }
    ensures { result ≡ end_of starts.now }
{
    starts[starts.len() - 1]
}

// Adds the values of a page behind those of the blocks before, or nothing, where memory is wanting.
fn add_values(
    starts: &mut Vec<usize>,
    bits: &mut Vec<u8>,
    page: PageView<'_>,
) -> Result<(), NoMemory>
    requires packed { IsPacked starts.old.items bits.old.items }
    requires begun { 1 ≤ length starts.old.items }
    requires few { count_in starts.old.items < 2 ^ 32 }
    requires page { page_rule_of Heap (page_bytes page) ≡ None }
    ensures packed { IsPacked starts.new.items bits.new.items }
    ensures ok { OnOk result (blocks_of starts.new.items bits.new.items
        ≡ blocks_of starts.old.items bits.old.items ++ targets_on (page_bytes page.entry) ∷ []) }
    ensures err { OnErr result (blocks_of starts.new.items bits.new.items
        ≡ blocks_of starts.old.items bits.old.items) }
{
    let start = end_of(starts);
    let end = start + usize::from(page.item_count());
    make_room(bits, end)?;
    starts.push(end)?;
    set_targets(bits, start, page);
    Ok(())
}

// Whether a line pointer is one of the blocks and its value is true.
#[inline]
fn has_value(starts: &[usize], bits: &[u8], tid: Tid) -> bool
    requires { IsPacked starts.now bits.now }
    ensures { result ≡ is_in (blocks_of starts.now bits.now) tid }
{
    let block = tid.block as usize;
    if tid.item == 0 || starts.len() <= block + 1 {
        return false;
    }
    let next = starts[block] + tid.item as usize;
    next <= starts[block + 1] && is_set(bits, next - 1)
}
