//! The index of listed entries.
ghost use Rattle.std.specs.Prelude.{◌≡◌, ◌≤◌, ◌++◌, IfOk, OnOk};
ghost use Rattle.std.specs.List.{AllByRecursion};
ghost use Rattle.page_write.specs.Pages.{meta_page};
ghost use Rattle.laws_building.specs.Built.{lay_levels};
ghost use Rattle.laws_built_index.specs.Trees.{IsPageFit};
ghost use Rattle.bt_build.specs.Groups.{AreItems};
ghost use Rattle.bt_build.specs.Kept.{AreKept, listed_in};
ghost use Rattle.bt_build.specs.Laid.{levels_bytes};
ghost use Rattle.bt_build.specs.Levels.{AreLevels, sheets_of};
ghost use Rattle.bt_build.specs.Outcome.{IsAnswer, IsTreeAnswer, meta_for};
ghost use Rattle.bt_build.specs.Source.{AreSorted, entries_sorted};

use crate::entries::{EntryList, Place, own_places};
use crate::fault::IndexFault;
use crate::groups::{Item, cut_items};
use crate::laying::Buffers;
use crate::levels::{Level, Levels, levels_over};
use crate::order::sort_places;
use crate::paging::{lay_above, lay_leaves};
use crate::source::{Sorted, Source, large_tid};
use bt_meta::{BTREE_MAGIC, BTREE_VERSION, Meta};
use key_orders::{Octets, key_orders_are_total, keys_are_searchable};
use laws_built_index::index_trees_may_be_laid;
use outside::NoMemory;
use page_layout::PAGE_BYTES;
use page_write::{meta_page, push_bytes};
use std::alloc::Global;

/// The most blocks that an index may have.
pub const MAX_BLOCKS: u32 = 65536;

// Each item takes 16 bytes, so that no memory holds more.
const MOST_ITEMS: usize = 0x0FFF_FFFF_FFFF_FFFF;

/// The file of an index that was built.
#[derive(Drop)]
pub struct BuiltTree {
    bytes: Vec<u8>,
    blocks: u32,
}

impl BuiltTree {
    ghost use Rattle.std.specs.Prelude.{◌≡◌};
    ghost use Rattle.bt_build.specs.Outcome.{blocks_in, bytes_in};

    /// How many blocks of 8192 bytes it has, from 1 to 65536.
    pub fn blocks(&self) -> u32
        ensures { result ≡ blocks_in self.now }
    {
        self.blocks
    }

    /// Its bytes, block by block.
    pub fn bytes(&self) -> &[u8]
        ensures { result.now ≡ bytes_in self.now }
    {
        &self.bytes
    }

    /// The same bytes, given away.
    pub fn into_octets(self) -> Octets
        ensures { result ≡ bytes_in self }
    {
        Octets::from_vec(self.bytes)
    }
}

// The metapage of a tree of so many blocks, of which the last is its root.
fn metapage(blocks: u32, levels: u32) -> [u8; 8192]
    requires blocks { 1 ≤ blocks }
    requires levels { 1 ≤ levels }
    ensures { result ≡ meta_page (meta_for blocks levels) }
{
    meta_page(Meta {
        magic: BTREE_MAGIC,
        version: BTREE_VERSION,
        root: blocks - 1,
        level: levels - 1,
        fastroot: blocks - 1,
        fastlevel: levels - 1,
    })
}

// The file of such a tree with its metapage, and with room for its other blocks.
fn begin_file(alloc: Global, blocks: u32, levels: u32) -> Result<Vec<u8>, NoMemory>
    requires blocks { 1 ≤ blocks }
    requires few { blocks ≤ 65536 }
    requires levels { 1 ≤ levels }
    ensures { IfOk result (λ bytes. bytes.items ≡ meta_page (meta_for blocks levels)) }
{
    let mut bytes = Vec::new(alloc);
    bytes.reserve(PAGE_BYTES as usize * blocks as usize)?;
    push_bytes(&mut bytes, &metapage(blocks, levels))?;
    Ok(bytes)
}

// Adds the pages of all levels.
fn lay_levels<'a>(
    sorted: Sorted<'a>,
    items: &[Item],
    all: &Levels,
    buffers: &mut Buffers<'a>,
    out: &mut Vec<u8>,
) -> Result<(), NoMemory>
    requires sorted { AreSorted sorted }
    requires items { AreItems sorted.source.specs.now sorted.source.more.now (entries_sorted sorted) items.now }
    requires levels { AreLevels sorted.source.specs.now (entries_sorted sorted) items.now all.now.levels.items
        all.now.end }
    requires few { all.now.end ≤ 65536 }
    requires fit { AllByRecursion (IsPageFit sorted.source.specs.now sorted.source.more.now) (lay_levels
        (sheets_of sorted.source.specs.now (entries_sorted sorted) items.now all.now.levels.items) 0 1) }
    ensures { OnOk result (out.new.items ≡ out.old.items
        ++ levels_bytes sorted.entry.source.specs.now sorted.entry.source.more.now (sheets_of
        sorted.entry.source.specs.now (entries_sorted sorted.entry) items.now all.now.levels.items) 0 1) }
{
    let Some((leaves, above)) = all.levels.split_first() else {
        return Ok(());
    };
    lay_leaves(sorted, leaves, items, buffers, out)?;
    let mut below: &Level = leaves;
    for i in 0..above.len() {
        lay_above(sorted, &above[i], below, buffers, out)?;
        below = &above[i];
    }
    Ok(())
}

// The index of entries in order, none of which is too large.
fn build_sorted<'a>(
    alloc: Global,
    sorted: Sorted<'a>,
    buffers: &mut Buffers<'a>,
) -> Result<BuiltTree, IndexFault>
    requires { AreSorted sorted }
    ensures { IsTreeAnswer sorted.entry.source.specs.now sorted.entry.source.more.now (entries_sorted sorted.entry)
        result }
{
    index_trees_may_be_laid();
    let items = cut_items(alloc, sorted.source, sorted.places)?;
    if MOST_ITEMS < items.len() {
        return Err(IndexFault::NoMemory);
    }
    let all = levels_over(alloc, sorted, &items, buffers)?;
    if u64::from(MAX_BLOCKS) < all.end {
        return Err(IndexFault::TooManyBlocks { blocks: all.end });
    }
    let blocks = all.end as u32;
    let mut bytes = begin_file(alloc, blocks, all.levels.len() as u32)?;
    lay_levels(sorted, &items, &all, buffers, &mut bytes)?;
    Ok(BuiltTree { bytes, blocks })
}

// The index of entries that lie at these places.
pub(crate) fn build_kept(
    alloc: Global,
    source: Source<'_>,
    places: &[Place],
) -> Result<BuiltTree, IndexFault>
    requires { AreKept source.specs.now source.more.now source.types.now source.arena.now places.now }
    ensures { IsAnswer (listed_in source.entry.specs.now source.entry.more.now source.entry.arena.now places.now)
        result }
{
    key_orders_are_total();
    keys_are_searchable();
    if let Some(tid) = large_tid(places) {
        return Err(IndexFault::KeyTooLarge { tid });
    }
    let mut in_order = own_places(alloc, places)?;
    sort_places(source.specs, source.arena, &mut in_order);
    let sorted = Sorted {
        source,
        places: &in_order,
    };
    let mut buffers = Buffers::new(alloc);
    build_sorted(alloc, sorted, &mut buffers)
}

/// Builds the index of these entries, in the order of its keys, and of TIDs where keys are equal (`IsBuilt`): the
/// metapage, the leaves from left to right, then each level upward (nbtree README, `nbtsort.c`).
///
/// `KeyTooLarge` comes where an entry would have more than 2704 bytes as an item of its own, and has the lowest TID
/// of such an entry; `TooManyBlocks` where none would and there would be more than 65536 blocks. Nothing ties
/// `NoMemory` to a cause.
pub fn build_index(alloc: Global, entries: &EntryList) -> Result<BuiltTree, IndexFault>
    ensures { IsAnswer entries.now result }
{
    entries.build(alloc)
}
