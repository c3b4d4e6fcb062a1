//! The check of a heap against an index of it by look-ups.
ghost use Rattle.std.specs.Prelude.{◌≡◌, ◌↔◌, OnOk, length, true};
ghost use Rattle.outside.specs.Adds.{AddsIn};
ghost use Rattle.outside.specs.Outside.{Asked, AskedAtMost, IfTold, Tells};
ghost use Rattle.reports.specs.Added.{report_lists};
ghost use Rattle.bt_levels.specs.Files.{number_of};
ghost use Rattle.bt_levels.specs.Sound.{block_count, file_of};
ghost use Rattle.heap_rows.specs.Reads.{ReadAtMost};
ghost use Rattle.join_distinct.specs.Apart.{AreApart};
ghost use Rattle.join_rules.specs.Lists.{entries_lists, indexed_lists, joined_lists};
ghost use Rattle.join_row_keys.specs.Joined.{BelongTogether, HoldTogether};
ghost use Rattle.join_unique.specs.Reads.{duplicate_reads};
ghost use Rattle.heap_indexed.specs.Reads.{looking_reads};

use heap_targets::set_tells_of_pages;
use join_leaf_pass::{Leaves, Spans};
use join_look_ups::{LookUps, probe_rows};
use join_row_keys::IndexedHeap;
use join_rules::heaps_and_indexes_are_judged;
use join_slots::RowSlots;
use join_unique::check_duplicates;
use outside::Files;
use rel_files::PageFault;
use reports::Report;
use std::alloc::Global;

// Adds each entry of an index that names what no entry may name.
fn check_strays<F: Files>(
    alloc: Global,
    files: &mut F,
    at: IndexedHeap<'_>,
    report: &mut Report,
) -> Result<(), PageFault>
    requires belong { BelongTogether at.case.now at.heap.now at.tree.now }
    requires hold { IfTold F.seen files.old (λ names. HoldTogether names at.case.now at.heap.now at.tree.now) }
    ensures lists { IfTold F.seen files.old (λ names. AddsIn report_lists result report.old report.new
        (entries_lists at.entry.case.now names (number_of (file_of at.entry.tree.now)))) }
    ensures asked { AskedAtMost (block_count at.entry.tree.now) F.seen files.old files.new result
        PageFault.ReadFault }
{
    set_tells_of_pages();
    let mut slots = RowSlots::new(alloc, 0)?;
    let mut spans = Spans::new(alloc);
    let leaves = Leaves {
        tree: at.tree,
        targets: Some(at.heap.targets()),
        apart: false,
    };
    leaves.check_entries(files, &mut slots, &mut spans, report)?;
    Ok(())
}

// Whether nothing is in a report.
fn is_empty(report: &Report) -> bool
    ensures { (result ≡ true) ↔ (length report.now.findings ≡ 0) × (length report.now.unjudged ≡ 0) }
{
    let counts = report.counts();
    counts.0 == 0 && counts.1 == 0
}

// Adds the rows of a unique index whose keys earlier rows have (X3) to the report on the index, where nothing is in it.
// It may be known that no two entries of the index have the same values.
pub(crate) fn add_duplicates<F: Files>(
    alloc: Global,
    files: &mut F,
    at: IndexedHeap<'_>,
    apart: bool,
    report: &mut Report,
) -> Result<(), PageFault>
    requires belong { BelongTogether at.case.now at.heap.now at.tree.now }
    requires hold { IfTold F.seen files.old (λ names. HoldTogether names at.case.now at.heap.now at.tree.now) }
    requires joined { IfTold F.seen files.old (λ names.
        report.old ≡ joined_lists at.case.now names (number_of (file_of at.tree.now))) }
    requires apart { IfTold F.seen files.old (λ names. apart ≡ true → AreApart names at.tree.now) }
    ensures lists { IfTold F.seen files.old (λ names. OnOk result (report.new
        ≡ indexed_lists at.entry.case.now names (number_of (file_of at.entry.tree.now)))) }
    ensures asked { Asked F.seen files.old files.new result PageFault.ReadFault }
    ensures reads { IfTold F.seen files.old (λ names. ReadAtMost
        (duplicate_reads names at.entry.heap.now at.entry.tree.now) F.seen files.old files.new) }
{
    heaps_and_indexes_are_judged();
    if !is_empty(report) {
        return Ok(());
    }
    let _looks = check_duplicates(alloc, files, at, apart, report)?;
    Ok(())
}

// The report on a heap and an index of it: what is found of the live rows (X1, U6) by look-ups, then of what the
// entries name (X2), and where nothing is there of equal keys (X3).
pub(crate) fn index_report<F: Files>(
    alloc: Global,
    files: &mut F,
    at: IndexedHeap<'_>,
) -> Result<Report, PageFault>
    requires belong { BelongTogether at.case.now at.heap.now at.tree.now }
    requires hold { IfTold F.seen files.old (λ names. HoldTogether names at.case.now at.heap.now at.tree.now) }
    ensures report { Tells F.seen files.old result (λ report names.
        report ≡ indexed_lists at.entry.case.now names (number_of (file_of at.entry.tree.now))) }
    ensures asked { Asked F.seen files.old files.new result PageFault.ReadFault }
    ensures reads { IfTold F.seen files.old (λ names. ReadAtMost
        (looking_reads names at.entry.case.now at.entry.heap.now at.entry.tree.now) F.seen files.old files.new) }
{
    let mut look_ups = LookUps::new(alloc)?;
    let mut report = Report::new(alloc);
    probe_rows(alloc, files, at, &mut look_ups, &mut report)?;
    check_strays(alloc, files, at, &mut report)?;
    add_duplicates(alloc, files, at, false, &mut report)?;
    Ok(report)
}

/// Judges a heap and an index of it together, in both of which nothing was found, by look-ups, and adds to the report
/// what is found: first of the live rows (X1, U6), by rising TID, then each entry of the index, killed or not, that
/// names what no entry may name (X2), by block, item and place in the item; and where there is none of these and the
/// index is unique, each live row whose key one with a lower TID has too (X3), by rising TID.
///
/// `ReadFault` comes only where the count of the files' faults rose. After an error
/// the report has a first part of what it would have got.
pub fn check_indexed<F: Files>(
    alloc: Global,
    files: &mut F,
    at: IndexedHeap<'_>,
    report: &mut Report,
) -> Result<(), PageFault>
    requires belong { BelongTogether at.case.now at.heap.now at.tree.now }
    requires hold { IfTold F.seen files.old (λ names. HoldTogether names at.case.now at.heap.now at.tree.now) }
    ensures lists { IfTold F.seen files.old (λ names. AddsIn report_lists result report.old report.new
        (indexed_lists at.entry.case.now names (number_of (file_of at.entry.tree.now)))) }
    ensures asked { Asked F.seen files.old files.new result PageFault.ReadFault }
    ensures reads { IfTold F.seen files.old (λ names. ReadAtMost
        (looking_reads names at.entry.case.now at.entry.heap.now at.entry.tree.now) F.seen files.old files.new) }
{
    let own = index_report(alloc, files, at)?;
    report.append(own)?;
    Ok(())
}
