//! The levels of the tree, from the leaves upward.
ghost use Rattle.std.specs.Prelude.{◌≡◌, ◌≤◌, ◌<◌, ◌+◌, ◌^◌, All, IfOk, length};
ghost use Rattle.bt_build.specs.Levels.{AreLevels, ArePages, IsLeafLevel, IsLevelAbove, at_firsts, firsts_in};
ghost use Rattle.bt_build.specs.Levels.{sizes_in, split_sizes};
ghost use Rattle.bt_build.specs.Source.{AreSorted, entries_sorted};

use crate::groups::Item;
use crate::laying::Buffers;
use crate::pages::count_pages;
use crate::separators::put_separator;
use crate::source::Sorted;
use outside::NoMemory;
use std::alloc::Global;

// The bytes of a line pointer.
const LINE_POINTER: u16 = 4;

// What the first item of a page above the leaves takes: it keeps nothing.
const FIRST_DOWNLINK: u16 = 12;

// A level of the tree.
#[derive(Drop)]
pub(crate) struct Level {
    // How many levels are below it.
    pub(crate) number: u64,
    // The block of its first page.
    pub(crate) first: u64,
    // Of each page, the first entry below it.
    pub(crate) bounds: Vec<usize>,
    // Of each page, how many items it has.
    pub(crate) counts: Vec<usize>,
}

// The levels, and the block behind the last.
#[derive(Drop)]
pub(crate) struct Levels {
    pub(crate) levels: Vec<Level>,
    pub(crate) end: u64,
}

// Of pages with so many items each, what stands at their first.
fn at_firsts(alloc: Global, counts: &[usize], items: &[usize]) -> Result<Vec<usize>, NoMemory>
    requires { ArePages counts.now (length items.now) }
    ensures { IfOk result (λ firsts. firsts.items ≡ at_firsts counts.now items.now) }
{
    let mut firsts = Vec::new(alloc);
    let mut left = items;
    for i in 0..counts.len() {
        firsts.push(left[0])?;
        let (_, rest) = left.split_at(counts[i]);
        left = rest;
    }
    Ok(firsts)
}

// What the items of a leaf take.
fn sizes_in(alloc: Global, items: &[Item]) -> Result<Vec<u16>, NoMemory>
    requires { All (λ item. item.size ≤ 2704) items.now }
    ensures { IfOk result (λ sizes. sizes.items ≡ sizes_in items.now) }
{
    let mut sizes = Vec::new(alloc);
    for i in 0..items.len() {
        sizes.push(items[i].size + LINE_POINTER)?;
    }
    Ok(sizes)
}

// The first entry of each item.
fn firsts_in(alloc: Global, items: &[Item]) -> Result<Vec<usize>, NoMemory>
    ensures { IfOk result (λ firsts. firsts.items ≡ firsts_in items.now) }
{
    let mut firsts = Vec::new(alloc);
    for i in 0..items.len() {
        firsts.push(items[i].first)?;
    }
    Ok(firsts)
}

// The leaves of these items.
fn leaf_level(alloc: Global, items: &[Item]) -> Result<Level, NoMemory>
    requires { All (λ item. item.size ≤ 2704) items.now }
    ensures { IfOk result (IsLeafLevel items.now) }
{
    let sizes = sizes_in(alloc, items)?;
    let counts = count_pages(alloc, &sizes, None)?;
    let firsts = firsts_in(alloc, items)?;
    let bounds = at_firsts(alloc, &counts, &firsts)?;
    Ok(Level {
        number: 0,
        first: 1,
        bounds,
        counts,
    })
}

// What separators before these entries take on a page.
fn split_sizes<'a>(
    alloc: Global,
    sorted: Sorted<'a>,
    bounds: &[usize],
    buffers: &mut Buffers<'a>,
) -> Result<Vec<u16>, NoMemory>
    requires { AreSorted sorted }
    ensures sizes { IfOk result (λ sizes. sizes.items
        ≡ split_sizes sorted.entry.source.specs.now (entries_sorted sorted.entry) bounds.now) }
    ensures small { IfOk result (λ sizes. All (λ size. size ≤ 2716) sizes.items) }
{
    let mut sizes = Vec::new(alloc);
    for i in 0..bounds.len() {
        put_separator(sorted, bounds[i], 0, buffers)?;
        sizes.push(buffers.tuple.len() as u16 + LINE_POINTER)?;
    }
    Ok(sizes)
}

// The level above another.
fn level_above<'a>(
    alloc: Global,
    sorted: Sorted<'a>,
    below: &Level,
    buffers: &mut Buffers<'a>,
) -> Result<Level, NoMemory>
    requires sorted { AreSorted sorted }
    requires number { below.now.number < 2 ^ 63 }
    requires blocks { below.now.first + length below.now.bounds.items < 2 ^ 64 }
    ensures { IfOk result (IsLevelAbove sorted.entry.source.specs.now (entries_sorted sorted.entry) below.now) }
{
    let sizes = split_sizes(alloc, sorted, &below.bounds, buffers)?;
    let counts = count_pages(alloc, &sizes, Some(FIRST_DOWNLINK))?;
    let bounds = at_firsts(alloc, &counts, &below.bounds)?;
    Ok(Level {
        number: below.number + 1,
        first: below.first + below.bounds.len() as u64,
        bounds,
        counts,
    })
}

// The levels over these items, until one page is left.
pub(crate) fn levels_over<'a>(
    alloc: Global,
    sorted: Sorted<'a>,
    items: &[Item],
    buffers: &mut Buffers<'a>,
) -> Result<Levels, NoMemory>
    requires sorted { AreSorted sorted }
    requires small { All (λ item. item.size ≤ 2704) items.now }
    requires few { length items.now < 2 ^ 60 }
    ensures { IfOk result (λ all. AreLevels sorted.entry.source.specs.now (entries_sorted sorted.entry) items.now
        all.levels.items all.end) }
{
    let mut levels = Vec::new(alloc);
    let mut top = leaf_level(alloc, items)?;
    while 1 < top.bounds.len() {
        let above = level_above(alloc, sorted, &top, buffers)?;
        levels.push(top)?;
        top = above;
    }
    let end = top.first + top.bounds.len() as u64;
    levels.push(top)?;
    Ok(Levels { levels, end })
}
