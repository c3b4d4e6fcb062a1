//! The pages of the tree, level by level.
ghost use Rattle.std.specs.Prelude.{◌≡◌, ◌≤◌, ◌<◌, ◌+◌, ◌++◌, All, IfOk, List, OnOk, drop, length, suc, ℕ};
ghost use Rattle.std.specs.Prelude.{if◌then◌else◌};
ghost use Rattle.std.specs.List.{AllByRecursion};
ghost use Rattle.page_write.specs.Pages.{tree_page};
ghost use Rattle.page_write.specs.Writing.{HoldsItems, free_bytes};
ghost use Rattle.laws_building.specs.Built.{lay_level};
ghost use Rattle.laws_built_index.specs.Pages.{flags_of};
ghost use Rattle.laws_built_index.specs.Trees.{IsPageFit};
ghost use Rattle.bt_build.specs.Groups.{IsItem};
ghost use Rattle.bt_build.specs.Laid.{bytes_for, high_bound, high_tuples, inner_tuples, later_tuples, leaf_tuples};
ghost use Rattle.bt_build.specs.Laid.{level_bytes, special_at};
ghost use Rattle.bt_build.specs.Levels.{ArePages, BeginAt, inner_by, leaves_by};
ghost use Rattle.bt_build.specs.Source.{AreSorted, entries_sorted};

use crate::groups::Item;
use crate::laying::{Buffers, put_item};
use crate::levels::Level;
use crate::separators::put_separator;
use crate::source::Sorted;
use bt_meta::{BTP_LEAF, BTP_ROOT, Opaque};
use outside::NoMemory;
use page_write::{PageWriter, push_bytes};

// A page with its high key, the separator before an entry, if it has one.
fn begin_page<'a>(
    sorted: Sorted<'a>,
    high: Option<usize>,
    buffers: &mut Buffers<'a>,
) -> Result<PageWriter, NoMemory>
    requires { AreSorted sorted }
    ensures items { IfOk result (λ page. HoldsItems page 8176
        (high_tuples sorted.entry.source.specs.now (entries_sorted sorted.entry) high)) }
    ensures room { IfOk result (λ page. free_bytes page
        + bytes_for (high_tuples sorted.entry.source.specs.now (entries_sorted sorted.entry) high) ≡ 8152) }
{
    let mut page = PageWriter::tree();
    if let Some(before) = high {
        put_separator(sorted, before, 0, buffers)?;
        page.add(&buffers.tuple);
    }
    Ok(page)
}

// Adds items of a leaf.
fn add_items<'a>(
    sorted: Sorted<'a>,
    items: &[Item],
    page: &mut PageWriter,
    buffers: &mut Buffers<'a>,
) -> Result<(), NoMemory>
    requires sorted { AreSorted sorted }
    requires items { All (IsItem sorted.source.specs.now sorted.source.more.now (entries_sorted sorted)) items.now }
    requires room { bytes_for (leaf_tuples sorted.source.specs.now sorted.source.more.now (entries_sorted sorted)
        items.now) ≤ free_bytes page.old }
    ensures { OnOk result ((front : List (List ℕ)) → HoldsItems page.old 8176 front → HoldsItems page.new 8176
        (front ++ leaf_tuples sorted.entry.source.specs.now sorted.entry.source.more.now (entries_sorted sorted.entry)
        items.now)) }
{
    for i in 0..items.len() {
        put_item(sorted.source, sorted.places, items[i], buffers)?;
        page.add(&buffers.tuple);
    }
    Ok(())
}

// Adds downlinks to pages from a block on, with the separators before these entries.
fn add_later<'a>(
    sorted: Sorted<'a>,
    bounds: &[usize],
    first: u32,
    page: &mut PageWriter,
    buffers: &mut Buffers<'a>,
) -> Result<(), NoMemory>
    requires sorted { AreSorted sorted }
    requires blocks { first + length bounds.now < 4294967296 }
    requires room { bytes_for (later_tuples sorted.source.specs.now (entries_sorted sorted) bounds.now first)
        ≤ free_bytes page.old }
    ensures { OnOk result ((front : List (List ℕ)) → HoldsItems page.old 8176 front → HoldsItems page.new 8176
        (front ++ later_tuples sorted.entry.source.specs.now (entries_sorted sorted.entry) bounds.now first)) }
{
    for i in 0..bounds.len() {
        put_separator(sorted, bounds[i], first + i as u32, buffers)?;
        page.add(&buffers.tuple);
    }
    Ok(())
}

// Adds the downlinks of a page to pages from a block on, of which these are the first entries. The first keeps nothing.
fn add_downlinks<'a>(
    sorted: Sorted<'a>,
    bounds: &[usize],
    first: u32,
    page: &mut PageWriter,
    buffers: &mut Buffers<'a>,
) -> Result<(), NoMemory>
    requires sorted { AreSorted sorted }
    requires blocks { first + length bounds.now < 4294967296 }
    requires room { bytes_for (inner_tuples sorted.source.specs.now (entries_sorted sorted) bounds.now first)
        ≤ free_bytes page.old }
    ensures { OnOk result ((front : List (List ℕ)) → HoldsItems page.old 8176 front → HoldsItems page.new 8176
        (front ++ inner_tuples sorted.entry.source.specs.now (entries_sorted sorted.entry) bounds.now first)) }
{
    let Some((_, later)) = bounds.split_first() else {
        return Ok(());
    };
    put_separator(sorted, 0, first, buffers)?;
    page.add(&buffers.tuple);
    add_later(sorted, later, first + 1, page, buffers)
}

// The flags of a page.
fn page_flags(leaf: bool, root: bool) -> u16
    ensures { result ≡ flags_of leaf root }
{
    match (leaf, root) {
        (true, true) => BTP_LEAF + BTP_ROOT,
        (true, false) => BTP_LEAF,
        (false, true) => BTP_ROOT,
        (false, false) => 0,
    }
}

// The special space of a page on a level, between its siblings. The root has none.
fn special_between(level: u32, prev: u32, next: u32) -> Opaque
    ensures { result ≡ special_at level prev next }
{
    Opaque {
        prev,
        next,
        level,
        flags: page_flags(level == 0, prev == 0 && next == 0),
        cycle: 0,
    }
}

// Adds a page behind the others.
fn push_page(out: &mut Vec<u8>, page: PageWriter, special: Opaque) -> Result<(), NoMemory>
    ensures { (items : List (List ℕ)) → HoldsItems page 8176 items
        → OnOk result (out.new.items ≡ out.old.items ++ tree_page items special) }
{
    push_bytes(out, &page.tree_page(special))
}

// The first entry of the page after page p, if there is one.
fn high_after(bounds: &[usize], p: usize) -> Option<usize>
    requires { p < length bounds.now }
    ensures { result ≡ high_bound (drop (p + 1) bounds.now) }
{
    if p + 1 < bounds.len() {
        Some(bounds[p + 1])
    } else {
        None
    }
}

// The block after a page, if its level has one.
fn next_block(block: u32, has_next: bool) -> u32
    requires { block < 4294967295 }
    ensures { result ≡ (if has_next then suc block else 0) }
{
    if has_next { block + 1 } else { 0 }
}

// Adds the leaves, from block 1 on.
pub(crate) fn lay_leaves<'a>(
    sorted: Sorted<'a>,
    level: &Level,
    items: &[Item],
    buffers: &mut Buffers<'a>,
    out: &mut Vec<u8>,
) -> Result<(), NoMemory>
    requires sorted { AreSorted sorted }
    requires items { All (IsItem sorted.source.specs.now sorted.source.more.now (entries_sorted sorted)) items.now }
    requires pages { ArePages level.now.counts.items (length items.now) }
    requires bounds { BeginAt sorted.source.specs.now (entries_sorted sorted)
        (leaves_by sorted.source.specs.now (entries_sorted sorted) level.now.counts.items items.now)
        level.now.bounds.items }
    requires few { length level.now.bounds.items < 65536 }
    requires fit { AllByRecursion (IsPageFit sorted.source.specs.now sorted.source.more.now) (lay_level
        (leaves_by sorted.source.specs.now (entries_sorted sorted) level.now.counts.items items.now) 0 0 1) }
    ensures { OnOk result (out.new.items ≡ out.old.items
        ++ level_bytes sorted.entry.source.specs.now sorted.entry.source.more.now (leaves_by
        sorted.entry.source.specs.now (entries_sorted sorted.entry) level.now.counts.items items.now) 0 0 1) }
{
    let mut left = items;
    let mut prev = 0;
    let mut block = 1;
    for p in 0..level.counts.len() {
        let (here, rest) = left.split_at(level.counts[p]);
        let high = high_after(&level.bounds, p);
        let mut page = begin_page(sorted, high, buffers)?;
        add_items(sorted, here, &mut page, buffers)?;
        let special = special_between(0, prev, next_block(block, high.is_some()));
        push_page(out, page, special)?;
        left = rest;
        prev = block;
        block += 1;
    }
    Ok(())
}

// Adds the pages above others.
pub(crate) fn lay_above<'a>(
    sorted: Sorted<'a>,
    level: &Level,
    below: &Level,
    buffers: &mut Buffers<'a>,
    out: &mut Vec<u8>,
) -> Result<(), NoMemory>
    requires sorted { AreSorted sorted }
    requires pages { ArePages level.now.counts.items (length below.now.bounds.items) }
    requires bounds { BeginAt sorted.source.specs.now (entries_sorted sorted)
        (inner_by sorted.source.specs.now (entries_sorted sorted) level.now.counts.items below.now.bounds.items
        below.now.first) level.now.bounds.items }
    requires number { below.now.number < 65536 }
    requires few { below.now.first + length below.now.bounds.items ≤ 65536 }
    requires first { level.now.first + length level.now.bounds.items ≤ 65536 }
    requires fit { AllByRecursion (IsPageFit sorted.source.specs.now sorted.source.more.now) (lay_level
        (inner_by sorted.source.specs.now (entries_sorted sorted) level.now.counts.items below.now.bounds.items
        below.now.first) (suc below.now.number) 0 level.now.first) }
    ensures { OnOk result (out.new.items ≡ out.old.items
        ++ level_bytes sorted.entry.source.specs.now sorted.entry.source.more.now (inner_by
        sorted.entry.source.specs.now (entries_sorted sorted.entry) level.now.counts.items below.now.bounds.items
        below.now.first) (suc below.now.number) 0 level.now.first) }
{
    let mut left: &[usize] = &below.bounds;
    let mut down = below.first as u32;
    let mut prev = 0;
    let mut block = level.first as u32;
    for p in 0..level.counts.len() {
        let count = level.counts[p];
        let (here, rest) = left.split_at(count);
        let high = high_after(&level.bounds, p);
        let mut page = begin_page(sorted, high, buffers)?;
        add_downlinks(sorted, here, down, &mut page, buffers)?;
        let special = special_between(
            below.number as u32 + 1,
            prev,
            next_block(block, high.is_some()),
        );
        push_page(out, page, special)?;
        left = rest;
        down += count as u32;
        prev = block;
        block += 1;
    }
    Ok(())
}
