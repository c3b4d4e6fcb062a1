//! The entries of a leaf of four, against a page of a heap, and against rows that are kept.
use crate::trees::{LISTED, open};
use bt_levels::SoundTree;
use heap_targets::RootSet;
use join_leaf_pass::{Leaves, Spans, meet_some};
use join_meet::HeapRange;
use join_slots::RowSlots;
use key_orders::{Tid, ValueRef};
use key_storage::{RowValues, StoredRows};
use outside::NoMemory;
use page_layout::{PageKind, PageView};
use reports::Report;
use std::alloc::Global;
use std::test::Fail;
use test_fixtures::{Page, UntoldFiles};

// A page of a heap with four line pointers of these flags: 0 unused, 2 a redirect to item 1, 3 dead.
fn heap(flags: [u8; 4]) -> [u8; 8192] {
    let mut page = Page::new(8192);
    for (k, flag) in flags.iter().enumerate() {
        let pointer: u32 = match *flag {
            2 => 0x10001,
            flag => u32::from(flag % 4) * 0x8000,
        };
        page.put(24 + 4 * k as u16, &pointer.to_le_bytes());
    }
    page.finish_at(40)
}

// What entries may name on a heap page with these flags.
fn targets_of(alloc: Global, flags: [u8; 4]) -> Result<RootSet, NoMemory> {
    let page = heap(flags);
    let mut targets = RootSet::new(alloc);
    let view = PageView::new(&page);
    if view.page_rule(PageKind::Heap).is_none() {
        targets.add_page(view)?;
    }
    Ok(targets)
}

// How many findings and places that can't be judged there are of the entries of a tree; which heap blocks its leaves
// name is kept.
fn counts(
    alloc: Global,
    files: &mut UntoldFiles,
    tree: &SoundTree,
    targets: &RootSet,
    spans: &mut Spans,
) -> Result<(u64, u64), Fail> {
    let mut report = Report::new(alloc);
    let mut slots = RowSlots::new(alloc, 0)?;
    let leaves = Leaves {
        tree,
        targets: Some(targets),
        apart: false,
    };
    leaves.check_entries(files, &mut slots, spans, &mut report)?;
    Ok(report.counts())
}

// How many entries of the leaf name what they may not, over a heap page with these flags: the items 1 to 4, of which
// the entry of the first is killed, and those of the next two are one tuple's.
fn strays(alloc: Global, flags: [u8; 4]) -> Result<(u64, u64), Fail> {
    let targets = targets_of(alloc, flags)?;
    let (mut files, tree) = open(alloc, LISTED)?;
    counts(alloc, &mut files, &tree, &targets, &mut Spans::new(alloc))
}

const STRAYS: [([u8; 4], u64); 5] = [
    ([3, 3, 2, 2], 0),
    ([0, 3, 2, 3], 1),
    ([3, 0, 3, 3], 1),
    ([2, 3, 0, 0], 2),
    ([0, 0, 0, 0], 4),
];

#[test]
fn entries_against_a_heap(rt: HostRuntime) -> Result<(), Fail> {
    for (flags, want) in STRAYS {
        assert_eq!(rt; strays(rt.alloc(), flags)?, (want, 0));
    }
    Ok(())
}

// Rows at items of block 0, with their keys: those of the leaf, but that the last has another.
const ROWS: [(u16, i64); 4] = [(1, 5), (2, 7), (3, 7), (4, 8)];

// Keeps a row with one value.
fn keep(slots: &mut RowSlots, tid: Tid, value: ValueRef<'_>) -> Result<(), NoMemory> {
    if let Some(row) = slots.begin_row(tid, 1)? {
        if slots.add_value(value)? {
            slots.keep_row(row);
        }
    }
    Ok(())
}

// Which of the rows entries of the leaf met that may name blocks of a range, from the first up to the end.
fn met(alloc: Global, first: u32, end: u32) -> Result<[bool; 4], Fail> {
    let targets = targets_of(alloc, [3, 3, 3, 3])?;
    let (mut files, tree) = open(alloc, LISTED)?;
    let mut spans = Spans::new(alloc);
    counts(alloc, &mut files, &tree, &targets, &mut spans)?;
    let mut slots = RowSlots::new(alloc, 0)?;
    slots.add_block(4)?;
    for (item, key) in ROWS {
        keep(&mut slots, Tid { block: 0, item }, ValueRef::Int(key))?;
    }
    meet_some(
        &mut files,
        &tree,
        &spans,
        HeapRange { first, end },
        &mut slots,
    )?;
    let mut met = [false; 4];
    for (place, (item, key)) in met.iter_mut().zip(ROWS) {
        let key = [ValueRef::Int(key)];
        let values = RowValues {
            key: &key,
            more: &[],
        };
        *place = slots.is_met(Tid { block: 0, item }, values) == Some(true);
    }
    Ok(met)
}

#[test]
fn entries_meet_rows_of_a_range(rt: HostRuntime) -> Result<(), Fail> {
    assert_eq!(rt; met(rt.alloc(), 0, 1)?, [false, true, true, false]);
    assert_eq!(rt; met(rt.alloc(), 1, 2)?, [false; 4]);
    Ok(())
}

// Rows of a number and a text each.
fn stored(alloc: Global, numbers: &[i64]) -> Result<StoredRows, NoMemory> {
    let mut rows = StoredRows::new(alloc);
    for number in numbers.iter() {
        let key = [ValueRef::Int(*number)];
        let more = [ValueRef::Bytes(b"text")];
        let values = RowValues {
            key: &key,
            more: &more,
        };
        rows.push(values)?;
    }
    Ok(rows)
}

// Whether a row of this number is kept at the items 1 to 3 of block 3, whose first two are kept as 5 and -7 at once.
fn numbered(alloc: Global, number: i64) -> Result<[bool; 3], NoMemory> {
    let mut slots = RowSlots::new(alloc, 3)?;
    slots.add_block(4)?;
    slots.keep_rows(3, &stored(alloc, &[5, -7])?)?;
    let key = [ValueRef::Int(number), ValueRef::Bytes(b"text")];
    let values = RowValues {
        key: &key,
        more: &[],
    };
    let mut kept = [false; 3];
    for (place, item) in kept.iter_mut().zip(1u16..4) {
        *place = slots.is_met(Tid { block: 3, item }, values).is_some();
    }
    Ok(kept)
}

// Whether rows of these numbers are kept in a block where block 3 alone is there with four line pointers, and then
// whether they are kept once more.
fn twice(alloc: Global, block: u32, numbers: &[i64]) -> Result<[bool; 2], NoMemory> {
    let mut slots = RowSlots::new(alloc, 3)?;
    slots.add_block(4)?;
    let rows = stored(alloc, numbers)?;
    let once = slots.keep_rows(block, &rows)?;
    let again = slots.keep_rows(block, &rows)?;
    Ok([once, again])
}

#[test]
fn rows_are_kept_at_once(rt: HostRuntime) -> Result<(), Fail> {
    assert_eq!(rt; numbered(rt.alloc(), 5)?, [true, false, false]);
    assert_eq!(rt; numbered(rt.alloc(), -7)?, [false, true, false]);
    assert_eq!(rt; twice(rt.alloc(), 3, &[1, 2, 3, 4])?, [true, false]);
    assert_eq!(rt; twice(rt.alloc(), 3, &[1, 2, 3, 4, 5])?, [false; 2]);
    assert_eq!(rt; twice(rt.alloc(), 4, &[1])?, [false; 2]);
    Ok(())
}
