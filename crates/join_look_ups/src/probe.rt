//! The rows of a heap looked up in an index of it, one after another.
ghost use Rattle.std.specs.Prelude.{◌≡◌, ◌≤◌, ◌+◌, ◌*◌, OnOk, length};
ghost use Rattle.outside.specs.Adds.{AddsIn};
ghost use Rattle.outside.specs.Outside.{Asked, IfTold};
ghost use Rattle.reports.specs.Added.{report_lists};
ghost use Rattle.bt_levels.specs.Files.{number_of};
ghost use Rattle.bt_levels.specs.Sound.{file_of};
ghost use Rattle.bt_search.specs.Lookups.{most_visits};
ghost use Rattle.heap_rows.specs.Reads.{ReadAtMost};
ghost use Rattle.heap_rows.specs.Rows.{rows_of};
ghost use Rattle.join_rules.specs.Lists.{rows_lists};
ghost use Rattle.join_row_keys.specs.Joined.{BelongTogether, HoldTogether};
ghost use Rattle.join_look_ups.specs.Looking.{AreOf, look_length, probe_reads};

use crate::joined::LookUps;
use crate::row_judge::RowJudge;
use bt_search::ways_are_short;
use heap_rows::RowCursor;
use join_row_keys::{IndexedHeap, KeyedHeap, columns_of};
use join_slots::RowSlots;
use outside::Files;
use rel_files::PageFault;
use reports::Report;
use std::alloc::Global;

// Looks up the rows of a heap one after another.
fn probe_in_turn<F: Files>(
    alloc: Global,
    files: &mut F,
    at: IndexedHeap<'_>,
    look_ups: &mut LookUps,
    report: &mut Report,
) -> Result<(), PageFault>
    requires belong { BelongTogether at.case.now at.heap.now at.tree.now }
    requires hold { IfTold F.seen files.old (λ names. HoldTogether names at.case.now at.heap.now at.tree.now) }
    requires of { IfTold F.seen files.old (λ names. AreOf names at.tree.now look_ups.old) }
    ensures lists { IfTold F.seen files.old (λ names. AddsIn report_lists result report.old report.new
        (rows_lists at.entry.case.now names (number_of (file_of at.entry.tree.now)))) }
    ensures visits { IfTold F.seen files.old (λ names. OnOk result (look_ups.new.visits.count
        ≤ look_ups.old.visits.count
        + length (rows_of at.entry.case.now names) * look_length names at.entry.tree.now)) }
    ensures reads { IfTold F.seen files.old (λ names. ReadAtMost
        (probe_reads names at.entry.case.now at.entry.heap.now at.entry.tree.now) F.seen files.old files.new) }
    ensures of { IfTold F.seen files.old (λ names. AreOf names at.entry.tree.now look_ups.new) }
    ensures asked { Asked F.seen files.old files.new result PageFault.ReadFault }
{
    at.case.sound();
    let columns = columns_of(alloc, &at.tree.columns())?;
    let mut cursor = RowCursor::new(alloc, at.case, at.heap, &columns)?;
    let slots = RowSlots::new(alloc, 0)?;
    let judge = RowJudge {
        index: KeyedHeap { at, first: 0 },
        slots: &slots,
    };
    judge.judge_blocks(
        files,
        &mut cursor,
        at.heap.heap().blocks(),
        look_ups,
        report,
    )
}

/// Adds to the report each live row of a heap that has no entry in an index of it with its own key, its included values
/// and the TID of its root that isn't killed (X1), and each of which such a value is compressed, so that it can't be
/// looked up (U6), by rising TID.
///
/// Each row is looked up by itself, as it comes. Pages of the index are looked at through the cache, and each look is a
/// visit: for each row no more than its way from the fast root has pages, which is at most `fastlevel` + 1 +
/// `right_halves` + `half_dead` of the index; and where the index includes columns, one more for the values that it
/// includes. So files are read at most as often as it takes to go over the heap once, with the values that are asked
/// for, and to look up each row.
///
/// `ReadFault` comes only where the count of the files' faults rose. After an error
/// the report has a first part of what it would have got.
pub fn probe_rows<F: Files>(
    alloc: Global,
    files: &mut F,
    at: IndexedHeap<'_>,
    look_ups: &mut LookUps,
    report: &mut Report,
) -> Result<(), PageFault>
    requires belong { BelongTogether at.case.now at.heap.now at.tree.now }
    requires hold { IfTold F.seen files.old (λ names. HoldTogether names at.case.now at.heap.now at.tree.now) }
    requires of { IfTold F.seen files.old (λ names. AreOf names at.tree.now look_ups.old) }
    ensures lists { IfTold F.seen files.old (λ names. AddsIn report_lists result report.old report.new
        (rows_lists at.entry.case.now names (number_of (file_of at.entry.tree.now)))) }
    ensures visits { IfTold F.seen files.old (λ names. OnOk result (look_ups.new.visits.count
        ≤ look_ups.old.visits.count
        + length (rows_of at.entry.case.now names) * look_length names at.entry.tree.now)) }
    ensures reads { IfTold F.seen files.old (λ names. ReadAtMost
        (probe_reads names at.entry.case.now at.entry.heap.now at.entry.tree.now) F.seen files.old files.new) }
    ensures most { IfTold F.seen files.old (λ names. OnOk result (look_ups.new.visits.count
        ≤ look_ups.old.visits.count
        + length (rows_of at.entry.case.now names) * most_visits at.entry.tree.now)) }
    ensures of { IfTold F.seen files.old (λ names. AreOf names at.entry.tree.now look_ups.new) }
    ensures asked { Asked F.seen files.old files.new result PageFault.ReadFault }
{
    ways_are_short();
    probe_in_turn(alloc, files, at, look_ups, report)?;
    Ok(())
}
