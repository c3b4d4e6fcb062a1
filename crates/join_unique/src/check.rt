//! The check of the keys of a unique index.
ghost use Rattle.std.specs.Prelude.{◌≡◌, ◌+◌, ◌*◌, ◌<◌, ◌≤◌, ◌^◌, ◌⊎◌, All, IfOk, OnOk, false, length, true};
ghost use Rattle.outside.specs.Adds.{AddsIn};
ghost use Rattle.outside.specs.Outside.{Asked, AskedAtMost, IfTold, Names, Tells};
ghost use Rattle.rel_files.specs.Relation.{count_of};
ghost use Rattle.reports.specs.Added.{nothing, report_lists};
ghost use Rattle.bt_levels.specs.Files.{number_of};
ghost use Rattle.bt_levels.specs.Sound.{file_of};
ghost use Rattle.heap_table_check.specs.Files.{heap_in};
ghost use Rattle.heap_rows.specs.Reads.{ReadAtMost, most_block_reads, value_reads};
ghost use Rattle.heap_rows.specs.RowCursor.{IsCursorOf, heap_at, next_in, rows_ahead};
ghost use Rattle.heap_rows.specs.Rows.{rows_of};
ghost use Rattle.join_rules.specs.Broken.{AreJoined};
ghost use Rattle.join_rules.specs.Lists.{duplicates_lists};
ghost use Rattle.join_rules.specs.Unique.{unique_of};
ghost use Rattle.join_row_keys.specs.Joined.{BelongTogether, HoldTogether};
ghost use Rattle.join_distinct.specs.Apart.{AreApart};
ghost use Rattle.join_unique.specs.Groups.{is_asked};
ghost use Rattle.join_unique.specs.Later.{later_lists};
ghost use Rattle.join_unique.specs.Reads.{duplicate_reads, group_reads};
ghost use Rattle.join_unique.specs.Roots.{is_root_in};
ghost use Rattle.join_unique.specs.Tables.{AreFewLooks, AreLooks, IsDone};

use crate::group::KeyGroup;
use crate::grouping::Grouping;
use crate::roots::Roots;
use bt_search::searches_go_in_steps;
use case_file::{Case, Unique};
use heap_rows::{RowCursor, rows_are_live_tuples};
use join_distinct::apart_leaves_have_no_equal_keys;
use join_row_keys::{IndexedHeap, KeyedHeap, columns_of};
use key_orders::{Scan, Tid, key_orders_are_total};
use outside::{Files, NoMemory};
use page_layout::Rule;
use rel_files::PageFault;
use reports::{Place, Report};
use std::alloc::Global;

// Whether an index of a case is unique, and how it takes nulls.
fn unique_of(case: &Case, n: u16) -> Unique
    requires { (1 ≤ n) × (n ≤ length case.now.indexes) }
    ensures { result ≡ unique_of case.now n }
{
    case.index_unique(n)
}

/// Whether the case calls an index unique, so that it is asked for equal keys.
pub fn is_unique(at: IndexedHeap<'_>) -> bool
    requires belong { BelongTogether at.case.now at.heap.now at.tree.now }
    ensures { result ≡ is_asked (unique_of at.entry.case.now (number_of (file_of at.entry.tree.now))) }
{
    match unique_of(at.case, at.tree.index()) {
        Unique::No => false,
        Unique::NullsDistinct | Unique::NullsEqual => true,
    }
}

// No row is a duplicate where the leaves of the index are apart.
fn no_row_is_second(at: IndexedHeap<'_>)
    requires belong { BelongTogether at.case.now at.heap.now at.tree.now }
    ensures { (names : Names) → HoldTogether names at.entry.case.now at.entry.heap.now at.entry.tree.now
        → AreJoined at.entry.case.now names (number_of (file_of at.entry.tree.now)) → AreApart names at.entry.tree.now
        → duplicates_lists at.entry.case.now names (number_of (file_of at.entry.tree.now)) ≡ nothing }
{
    rows_are_live_tuples();
    apart_leaves_have_no_equal_keys();
    at.case.sound();
}

// Adds X3 at the rows of these numbers.
fn add_later(numbers: &[u64], index: u16, report: &mut Report) -> Result<(), NoMemory>
    requires { All (λ n. n < 2 ^ 48) numbers.now }
    ensures { AddsIn report_lists result report.old report.new (later_lists index numbers.now) }
{
    for k in 0..numbers.len() {
        let tid = Tid {
            block: (numbers[k] / 65536) as u32,
            item: (numbers[k] % 65536) as u16,
        };
        report.add_rule(Place::Tuple(index, tid), Some(Rule::X3))?;
    }
    Ok(())
}

// Puts the roots of all rows that are ahead of a cursor into a set.
fn add_roots<F: Files>(
    files: &mut F,
    cursor: &mut RowCursor<'_>,
    roots: &mut Roots,
) -> Result<(), PageFault>
    requires begun { next_in cursor.old ≡ 0 }
    requires none { value_reads cursor.old ≡ 0 }
    requires told { IfTold F.seen files.old (λ names. IsCursorOf names cursor.old) }
    ensures roots { IfTold F.seen files.old (λ names. OnOk result
        (All (λ row. is_root_in roots.new row.root ≡ true) (rows_ahead names cursor.old))) }
    ensures asked { AskedAtMost (most_block_reads (heap_at cursor.old) * (count_of (heap_in (heap_at cursor.old)) + 1))
        F.seen files.old files.new result PageFault.ReadFault }
{
    for k in 0..u64::MAX {
        let Some(place) = cursor.find(files)? else {
            return Ok(());
        };
        roots.insert(place.root);
        cursor.pass();
    }
    Err(PageFault::NoMemory)
}

// The set of the roots of all rows of a heap.
fn roots_of<F: Files>(alloc: Global, files: &mut F, at: IndexedHeap<'_>) -> Result<Roots, PageFault>
    requires belong { BelongTogether at.case.now at.heap.now at.tree.now }
    requires hold { IfTold F.seen files.old (λ names. HoldTogether names at.case.now at.heap.now at.tree.now) }
    ensures roots { Tells F.seen files.old result (λ roots names.
        All (λ row. is_root_in roots row.root ≡ true) (rows_of at.entry.case.now names)) }
    ensures asked { AskedAtMost (most_block_reads at.entry.heap.now * (count_of (heap_in at.entry.heap.now) + 1)) F.seen
        files.old files.new result PageFault.ReadFault }
{
    let mut roots = Roots::new(alloc, at.heap.heap().blocks())?;
    let mut cursor = RowCursor::new(alloc, at.case, at.heap, &[])?;
    add_roots(files, &mut cursor, &mut roots)?;
    Ok(roots)
}

// The group after all entries of an index, with the rows before which one with the same key stands.
fn group_rows<F: Files>(
    alloc: Global,
    files: &mut F,
    at: IndexedHeap<'_>,
    unique: Unique,
    roots: &Roots,
) -> Result<KeyGroup, PageFault>
    requires belong { BelongTogether at.case.now at.heap.now at.tree.now }
    requires hold { IfTold F.seen files.old (λ names. HoldTogether names at.case.now at.heap.now at.tree.now) }
    ensures done { Tells F.seen files.old result (λ group names. IsDone names at.entry unique roots.now group) }
    ensures asked { Asked F.seen files.old files.new result PageFault.ReadFault }
    ensures reads { IfTold F.seen files.old (λ names.
        ReadAtMost (group_reads names at.entry.heap.now at.entry.tree.now) F.seen files.old files.new) }
{
    at.case.sound();
    let columns = columns_of(alloc, &at.tree.columns())?;
    let mut cursor = RowCursor::new(alloc, at.case, at.heap, &columns)?;
    let Ok(scan) = Scan::new(alloc, at.tree.columns().specs, &[], true, &[], true) else {
        return Err(PageFault::NoMemory);
    };
    let mut group = KeyGroup::new(alloc, unique);
    let index = KeyedHeap { at, first: 0 };
    let grouping = Grouping {
        index,
        unique,
        roots,
        scan: &scan,
    };
    grouping.walk(files, &mut cursor, &mut group)?;
    grouping.close(files, &mut cursor, &mut group)?;
    Ok(group)
}

// The rows before which one with the same key stands.
#[derive(Drop)]
struct Later {
    // Their numbers, rising.
    numbers: Vec<u64>,
    // How many times the rows of a block were gone over.
    looks: u64,
}

// Goes over the leaves of an index, for the rows before which one with the same key stands.
fn later_rows<F: Files>(
    alloc: Global,
    files: &mut F,
    at: IndexedHeap<'_>,
    unique: Unique,
) -> Result<Later, PageFault>
    requires belong { BelongTogether at.case.now at.heap.now at.tree.now }
    requires hold { IfTold F.seen files.old (λ names. HoldTogether names at.case.now at.heap.now at.tree.now) }
    requires joined { IfTold F.seen files.old (λ names.
        AreJoined at.case.now names (number_of (file_of at.tree.now))) }
    requires kind { unique ≡ unique_of at.case.now (number_of (file_of at.tree.now)) }
    ensures tids { IfOk result (λ later. All (λ n. n < 2 ^ 48) later.numbers.items) }
    ensures lists { Tells F.seen files.old result (λ later names.
        later_lists (number_of (file_of at.entry.tree.now)) later.numbers.items
        ≡ duplicates_lists at.entry.case.now names (number_of (file_of at.entry.tree.now))) }
    ensures few { Tells F.seen files.old result (λ later names. AreFewLooks names at.entry later.looks) }
    ensures looks { Tells F.seen files.old result (λ later names. AreLooks names at.entry unique later.looks) }
    ensures asked { Asked F.seen files.old files.new result PageFault.ReadFault }
    ensures reads { IfTold F.seen files.old (λ names.
        ReadAtMost (duplicate_reads names at.entry.heap.now at.entry.tree.now) F.seen files.old files.new) }
{
    rows_are_live_tuples();
    key_orders_are_total();
    at.case.sound();
    let roots = roots_of(alloc, files, at)?;
    let group = group_rows(alloc, files, at, unique, &roots)?;
    let looks = group.looks();
    let mut numbers = group.into_later();
    numbers.sort_unstable();
    numbers.dedup();
    Ok(Later { numbers, looks })
}

/// Adds to the report each live row of a heap that has, in a unique index of it, the key of a row with a lower TID
/// (X3), by rising TID. A null is equal to none, unless the index takes nulls as equal; included columns play no part.
/// Each live row has its entry in the index, and each entry names what it may (`AreJoined`): nothing was found of
/// either before. Of an index that isn't unique nothing is added, and nothing is read; nor is it where it is known that
/// no two entries of the index have the same values (`apart`).
///
/// The heap is read once for the roots of its rows, and the leaves of the index once along their chain. Of the entries
/// that have one key and may be of a row, where they are more than one, each block that they name is read once more.
/// In all there are at most as many reads as `duplicate_reads` says.
/// The answer is how many times the rows of a block were gone over so: at most once for each unkilled entry of the
/// index, and 0 where nothing is read.
///
/// `ReadFault` comes only where the count of the files' faults rose. After an error the report has a first part of what
/// it would have got.
pub fn check_duplicates<F: Files>(
    alloc: Global,
    files: &mut F,
    at: IndexedHeap<'_>,
    apart: bool,
    report: &mut Report,
) -> Result<u64, PageFault>
    requires belong { BelongTogether at.case.now at.heap.now at.tree.now }
    requires hold { IfTold F.seen files.old (λ names. HoldTogether names at.case.now at.heap.now at.tree.now) }
    requires joined { IfTold F.seen files.old (λ names.
        AreJoined at.case.now names (number_of (file_of at.tree.now))) }
    requires apart { IfTold F.seen files.old (λ names. apart ≡ true → AreApart names at.tree.now) }
    ensures lists { IfTold F.seen files.old (λ names. AddsIn report_lists result report.old report.new
        (duplicates_lists at.entry.case.now names (number_of (file_of at.entry.tree.now)))) }
    ensures few { Tells F.seen files.old result (λ looks names. AreFewLooks names at.entry looks) }
    ensures looks { Tells F.seen files.old result (λ looks names. apart ≡ false
        → is_asked (unique_of at.entry.case.now (number_of (file_of at.entry.tree.now))) ≡ true
        → AreLooks names at.entry (unique_of at.entry.case.now (number_of (file_of at.entry.tree.now))) looks) }
    ensures none { IfOk result (λ looks. apart ≡ true
        ⊎ is_asked (unique_of at.entry.case.now (number_of (file_of at.entry.tree.now))) ≡ false → looks ≡ 0) }
    ensures unread { apart ≡ true
        ⊎ is_asked (unique_of at.entry.case.now (number_of (file_of at.entry.tree.now))) ≡ false
        → AskedAtMost 0 F.seen files.old files.new result PageFault.ReadFault }
    ensures asked { Asked F.seen files.old files.new result PageFault.ReadFault }
    ensures reads { IfTold F.seen files.old (λ names.
        ReadAtMost (duplicate_reads names at.entry.heap.now at.entry.tree.now) F.seen files.old files.new) }
{
    searches_go_in_steps();
    if apart {
        no_row_is_second(at);
        return Ok(0);
    }
    let index = at.tree.index();
    let unique = unique_of(at.case, index);
    if let Unique::No = unique {
        return Ok(0);
    }
    let later = later_rows(alloc, files, at, unique)?;
    add_later(&later.numbers, index, report)?;
    Ok(later.looks)
}
