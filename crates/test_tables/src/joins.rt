//! Tables in memory against their indexes: what comes of them, and how often pages are read and looked at.
ghost use Rattle.std.specs.Prelude.{IfOk};
ghost use Rattle.heap_table_check.specs.Files.{BelongTo, files_of};
ghost use Rattle.heap_indexed.specs.Meetings.{BelongToIt};
ghost use Rattle.join_row_keys.specs.Joined.{BelongTogether};

use crate::sound::{sound_heap, sound_tree};
use bt_levels::SoundTree;
use bt_search::{PageCache, Visits, probe};
use bt_steps::Sought;
use case_file::Case;
use heap_check::{LiveRows, SoundHeap};
use heap_indexed::{check_indexed, meet_indexes};
use join_look_ups::{LookUps, probe_rows};
use join_row_keys::{IndexedHeap, IndexedTable};
use key_orders::{KeyRefs, Octets, Tid, ValueRef, fits_columns};
use reports::Report;
use std::alloc::Global;
use std::test::Fail;
use test_fixtures::{Kind, Table, UntoldFiles, Wrong};

// A heap of 5000 rows on 50 blocks, with an index of 20 leaves under a root.
const UUIDS: Table = Table {
    kind: Kind::Uuid,
    across: 100,
    down: 50,
    on_block: 100,
    on_leaf: 250,
    updated: false,
    wrong: Wrong::Nothing,
};

// A heap of one page, with an index of 70 leaves.
const NUMBERS: Table = Table {
    kind: Kind::Int4,
    across: 70,
    down: 3,
    on_block: 210,
    on_leaf: 3,
    updated: false,
    wrong: Wrong::Nothing,
};

// A heap of a hundred blocks.
const TEXTS: Table = Table {
    kind: Kind::Text,
    across: 100,
    down: 10,
    on_block: 10,
    on_leaf: 250,
    updated: true,
    wrong: Wrong::Nothing,
};

const CLEAN: &str = "findings 0 unjudged 0\nverdict clean\n";

// The files of a table and its case, and what is sound in them.
fn open(alloc: Global, table: Table) -> Result<(UntoldFiles, Case, SoundHeap, SoundTree), Fail>
    ensures { IfOk result (λ all. BelongTogether all.1 all.2 all.3) }
{
    let mut files = table.files(alloc)?;
    let case = table.case(alloc).ok_or("refused")?;
    let heap = sound_heap(alloc, &mut files, &case)?;
    let tree = sound_tree(alloc, &mut files, &case)?;
    Ok((files, case, heap, tree))
}

// Reads rows to their end, or as many as this, and says how many there are.
fn count_rows(
    alloc: Global,
    files: &mut UntoldFiles,
    rows: &mut LiveRows<'_>,
    most: u16,
) -> Result<u16, Fail> {
    for k in 0..most {
        if rows.next_row(alloc, files)?.is_none() {
            return Ok(k);
        }
    }
    Ok(most)
}

// How often files are read while all rows of a heap are, which are so many.
fn reads_of_heap(
    alloc: Global,
    files: &mut UntoldFiles,
    case: &Case,
    heap: &SoundHeap,
    rows: u16,
) -> Result<u64, Fail>
    requires { BelongTo case.now (files_of heap.now) }
{
    let before = files.reads;
    let mut cursor = LiveRows::new(alloc, case, heap)?;
    if count_rows(alloc, files, &mut cursor, rows.saturating_add(1))? != rows {
        return Err("other rows".into());
    }
    Ok(files.reads.saturating_sub(before))
}

// How often files are read while all rows of a table are.
fn reads_of_rows(alloc: Global, table: Table) -> Result<u64, Fail> {
    let mut files = table.files(alloc)?;
    let case = table.case(alloc).ok_or("refused")?;
    let heap = sound_heap(alloc, &mut files, &case)?;
    reads_of_heap(alloc, &mut files, &case, &heap, table.rows())
}

// The report on a heap and its index together, and how often files are read for it.
fn reported_of(
    alloc: Global,
    files: &mut UntoldFiles,
    at: IndexedHeap<'_>,
) -> Result<(Octets, u64), Fail>
    requires { BelongTogether at.case.now at.heap.now at.tree.now }
{
    let before = files.reads;
    let mut report = Report::new(alloc);
    check_indexed(alloc, files, at, &mut report)?;
    Ok((report.text(alloc)?, files.reads.saturating_sub(before)))
}

// The same of a table.
fn reported(alloc: Global, table: Table) -> Result<(Octets, u64), Fail> {
    let (mut files, case, heap, tree) = open(alloc, table)?;
    let at = IndexedHeap {
        case: &case,
        heap: &heap,
        tree: &tree,
    };
    reported_of(alloc, &mut files, at)
}

// The report on a heap and its one index together, told by entries that meet rows.
fn met_of(alloc: Global, files: &mut UntoldFiles, at: IndexedTable<'_>) -> Result<Octets, Fail>
    requires { BelongToIt at }
{
    let mut reports = meet_indexes(alloc, files, at)?.reports;
    match reports.pop_front() {
        Some(report) => Ok(report.text(alloc)?),
        None => Err("no report".into()),
    }
}

// The same of a table.
fn met(alloc: Global, table: Table) -> Result<Octets, Fail> {
    let (mut files, case, heap, tree) = open(alloc, table)?;
    let mut trees = Vec::new(alloc);
    trees.push(tree)?;
    let at = IndexedTable {
        case: &case,
        heap: &heap,
        trees: &trees,
    };
    met_of(alloc, &mut files, at)
}

// How many visits the look-ups of a heap's rows take through a cache of one page, where nothing is found.
fn visits_of(alloc: Global, files: &mut UntoldFiles, at: IndexedHeap<'_>) -> Result<u64, Fail>
    requires { BelongTogether at.case.now at.heap.now at.tree.now }
{
    let mut report = Report::new(alloc);
    let mut look_ups = LookUps {
        cache: PageCache::new(alloc, 1)?,
        visits: Visits { count: 0 },
    };
    probe_rows(alloc, files, at, &mut look_ups, &mut report)?;
    if report.counts() != (0, 0) {
        return Err("found".into());
    }
    Ok(look_ups.visits.count)
}

// The same of a table.
fn visits_in(alloc: Global, table: Table) -> Result<u64, Fail> {
    let (mut files, case, heap, tree) = open(alloc, table)?;
    let at = IndexedHeap {
        case: &case,
        heap: &heap,
        tree: &tree,
    };
    visits_of(alloc, &mut files, at)
}

#[test]
fn rows_are_looked_up_in_two_visits_each(rt: HostRuntime) -> Result<(), Fail> {
    let count = visits_in(rt.alloc(), UUIDS)?;
    assert!(rt; 10000 <= count && count <= 15000);
    Ok(())
}

// How many more reads a clean report on a table takes than its rows do.
fn more_reads(alloc: Global, table: Table) -> Result<u64, Fail> {
    let rows = reads_of_rows(alloc, table)?;
    let (text, reads) = reported(alloc, table)?;
    if text.as_slice() != CLEAN.as_bytes() {
        return Err("another report".into());
    }
    Ok(reads.saturating_sub(rows))
}

// In the second table each row goes to another leaf, and the cache holds fewer than there are, so that pages are read
// again.
#[test]
fn reads_of_pages(rt: HostRuntime) -> Result<(), Fail> {
    let few = more_reads(rt.alloc(), UUIDS)?;
    assert!(rt; few <= 120);
    let more = more_reads(rt.alloc(), NUMBERS)?;
    assert!(rt; 211 <= more && more <= 300);
    Ok(())
}

// The answer of a look-up of an entry through a cache of one page.
fn probed(
    alloc: Global,
    files: &mut UntoldFiles,
    tree: &SoundTree,
    key: &KeyRefs<'_>,
    tid: Tid,
) -> Result<bool, Fail> {
    if !fits_columns(tree.specs(), key) || key.as_slice().len() != tree.specs().len() {
        return Err("no key".into());
    }
    let mut cache = PageCache::new(alloc, 1)?;
    // It has fewer than 2^32.
    let _blocks = tree.blocks();
    let mut visits = Visits { count: 0 };
    Ok(probe(tree, files, Sought { key, tid }, &mut cache, &mut visits)?)
}

// Whether row 137 is found, which has the value 1851. A fourth read would fail.
fn is_found_in_three_reads(
    alloc: Global,
    files: &mut UntoldFiles,
    tree: &SoundTree,
) -> Result<bool, Fail> {
    let mut key = KeyRefs::new();
    key.push(ValueRef::Bytes(b"\0\0\x07\x3b\0\0\0\0\0\0\0\0\0\0\0\0"));
    files.fail_from(4);
    let tid = Tid { block: 1, item: 38 };
    probed(alloc, files, tree, &key, tid)
}

#[test]
fn a_row_is_looked_up_in_three_reads(rt: HostRuntime) -> Result<(), Fail> {
    let alloc = rt.alloc();
    let mut files = UUIDS.files(alloc)?;
    let case = UUIDS.case(alloc).ok_or("refused")?;
    let tree = sound_tree(alloc, &mut files, &case)?;
    assert!(rt; is_found_in_three_reads(alloc, &mut files, &tree)?);
    Ok(())
}

// What is wrong, by a letter and a row or an item: an entry that is left out, a stray one, a value that is packed.
fn wrong_with(letter: u8, number: u16) -> Wrong {
    match letter {
        b'e' => Wrong::NoEntry(number),
        b's' => Wrong::Stray(number),
        b'p' => Wrong::Packed(number),
        _ => Wrong::Nothing,
    }
}

// Whether both ways to the report on a table of texts, of which this is wrong, say the same as this.
fn is_told_by_both(alloc: Global, wrong: Wrong, told: &str) -> Result<bool, Fail> {
    let table = Table { wrong, ..TEXTS };
    let (text, _) = reported(alloc, table)?;
    if text.as_slice() != told.as_bytes() {
        return Ok(false);
    }
    let text = met(alloc, table)?;
    Ok(text.as_slice() == told.as_bytes())
}

// What is wrong, as a letter and a number, and the report.
const FAULTS: [(u8, u16, &str); 6] = [
    (
        b'e',
        0,
        "finding X1 index 1 tuple 0 11\nfindings 1 unjudged 0\nverdict findings\n",
    ),
    (
        b'e',
        637,
        "finding X1 index 1 tuple 63 8\nfindings 1 unjudged 0\nverdict findings\n",
    ),
    // a heap-only tuple, and an item that isn't there
    (
        b's',
        11,
        "finding X2 index 1 block 1 item 3 tid 0 11\nfindings 1 unjudged 0\nverdict findings\n",
    ),
    (
        b's',
        12,
        "finding X2 index 1 block 1 item 3 tid 0 12\nfindings 1 unjudged 0\nverdict findings\n",
    ),
    (
        b'p',
        999,
        "unjudged U6 index 1 tuple 99 10\nfindings 0 unjudged 1\nverdict unjudged\n",
    ),
    (b'-', 0, CLEAN),
];

#[test]
fn rows_of_many_blocks_by_look_ups_and_by_entries(rt: HostRuntime) -> Result<(), Fail> {
    for (letter, number, told) in FAULTS {
        let wrong = wrong_with(letter, number);
        assert!(rt;
            is_told_by_both(rt.alloc(), wrong, told)?,
            "{number}: {told}"
        );
    }
    Ok(())
}
