//! The live rows of a heap, one after another, each judged for one index: whether that has an entry for it.
ghost use Rattle.std.specs.Prelude.{◌≡◌, ◌<◌, ◌≤◌, ◌+◌, ◌-◌, ◌*◌, [], OnOk, Some, false, length, map, true};
ghost use Rattle.outside.specs.Adds.{AddsIn};
ghost use Rattle.outside.specs.Outside.{Asked, IfTold, Tells};
ghost use Rattle.rel_files.specs.Faults.{read_fault};
ghost use Rattle.rel_files.specs.Relation.{count_of};
ghost use Rattle.key_orders.specs.Keys.{IsKey};
ghost use Rattle.key_orders.specs.Values.{value_shown};
ghost use Rattle.bt_levels.specs.Sound.{file_of, index_columns, more_of, specs_of};
ghost use Rattle.reports.specs.Added.{doubt_at, report_lists};
ghost use Rattle.bt_levels.specs.Files.{number_of};
ghost use Rattle.heap_table_check.specs.Files.{heap_in};
ghost use Rattle.heap_rows.specs.RowCursor.{IsAtRow, IsSameCursor, heap_at, next_in, rows_here, taken_in};
ghost use Rattle.heap_rows.specs.Reads.{ReadAtMost, columns_at, page_reads, value_reads};
ghost use Rattle.heap_rows.specs.Rows.{block_rows};
ghost use Rattle.heap_rows.specs.declared.rows.LiveRow.{LiveRow as Row};
ghost use Rattle.join_rules.specs.Lists.{missing_rule};
ghost use Rattle.join_look_ups.specs.Looking.{has_entry, look_length};
ghost use Rattle.join_look_ups.specs.Judging.{IsBetween, IsReady, IsWithin};
ghost use Rattle.join_look_ups.specs.Rows.{HasValues};
ghost use Rattle.join_row_keys.specs.Rows.{IsFound, IsIndexAt};
ghost use Rattle.join_look_ups.specs.Rows.{Settles, lists_of_row, owed_for, rows_from};

use crate::joined::{IndexedRow, LookUps};
use heap_rows::{RowCursor, RowPlace};
use join_row_keys::KeyedHeap;
use join_slots::RowSlots;
use key_orders::{KeyRefs, MoreRefs, Tid};
use key_storage::RowValues;
use outside::{Files, NoMemory};
use page_layout::{MAX_ITEMS, Rule};
use rel_files::{PageFault, ReadFault};
use reports::{Place, Reason, Report};

/// An index for which rows are judged, and rows that are kept for it, of which it is known whether an entry met them.
#[derive(Clone, Copy)]
pub struct RowJudge<'a> {
    pub index: KeyedHeap<'a>,
    pub slots: &'a RowSlots,
}

// The rule that is broken where a row has no entry.
fn missing_rule(found: bool) -> Option<Rule>
    ensures { result ≡ missing_rule found }
{
    if found { None } else { Some(Rule::X1) }
}

impl RowJudge<'_> {
    // Whether the index has an unkilled entry for a row. Of one that is kept it is known, and any other is looked up.
    fn has_entry<F: Files>(
        self,
        files: &mut F,
        row: IndexedRow<'_>,
        look_ups: &mut LookUps,
    ) -> Result<bool, ReadFault>
        requires ready { IfTold F.seen files.old (λ names. IsReady names self look_ups.old) }
        requires key { IsKey (specs_of self.index.at.tree.now) row.key.now }
        requires more { length row.more.now ≡ length (more_of self.index.at.tree.now) }
        ensures found { Tells F.seen files.old result (λ found names.
            found ≡ has_entry names self.entry.index.at.tree.now row.entry.key.now (map value_shown row.entry.more.now)
            row.entry.place.root) }
        ensures visits { IfTold F.seen files.old (λ names. look_ups.new.visits.count
            ≤ look_ups.old.visits.count + look_length names self.entry.index.at.tree.now) }
        ensures reads { IfTold F.seen files.old (λ names.
            ReadAtMost (look_length names self.entry.index.at.tree.now) F.seen files.old files.new) }
        ensures ready { IfTold F.seen files.old (λ names. IsReady names self.entry look_ups.new) }
        ensures asked { Asked F.seen files.old files.new result read_fault }
    {
        let values = RowValues {
            key: row.key.as_slice(),
            more: row.more,
        };
        if let Some(is_met) = self.slots.is_met(row.place.root, values) {
            return Ok(is_met);
        }
        look_ups.has_entry(files, self.index.at.tree, row)
    }

    // Judges a row with these values: X1 where it has no entry.
    fn judge_values<F: Files>(
        self,
        files: &mut F,
        row: IndexedRow<'_>,
        look_ups: &mut LookUps,
        report: &mut Report,
    ) -> Result<(), PageFault>
        requires ready { IfTold F.seen files.old (λ names. IsReady names self look_ups.old) }
        requires key { IsKey (specs_of self.index.at.tree.now) row.key.now }
        requires more { length row.more.now ≡ length (more_of self.index.at.tree.now) }
        ensures lists { IfTold F.seen files.old (λ names. (live : Row) → row.entry.place.tid ≡ live.tid
            → row.entry.place.root ≡ live.root
            → HasValues (index_columns self.entry.index.at.tree.now) live row.entry.key.now
            (map value_shown row.entry.more.now)
            → AddsIn report_lists result report.old report.new
            (lists_of_row names self.entry.index.at.tree.now live)) }
        ensures visits { IfTold F.seen files.old (λ names. look_ups.new.visits.count
            ≤ look_ups.old.visits.count + look_length names self.entry.index.at.tree.now) }
        ensures reads { IfTold F.seen files.old (λ names.
            ReadAtMost (look_length names self.entry.index.at.tree.now) F.seen files.old files.new) }
        ensures ready { IfTold F.seen files.old (λ names. IsReady names self.entry look_ups.new) }
        ensures asked { Asked F.seen files.old files.new result PageFault.ReadFault }
    {
        let found = self.has_entry(files, row, look_ups)?;
        let rule = missing_rule(found);
        let place = Place::Tuple(self.index.at.tree.index(), row.place.tid);
        report.add_rule(place, rule)?;
        Ok(())
    }

    // Adds the doubt that a value of a row is compressed.
    fn add_doubt(self, tid: Tid, report: &mut Report) -> Result<(), NoMemory>
        ensures { AddsIn report_lists result report.old report.new
            (doubt_at (Place.Tuple (number_of (file_of self.entry.index.at.tree.now)) tid) (Some Reason.U6)) }
    {
        report.unjudged(Reason::U6, Place::Tuple(self.index.at.tree.index(), tid))?;
        Ok(())
    }

    // Judges the row at which a cursor is: X1 where it has no entry, U6 where a value that it has in the index is
    // compressed. Only an index that includes columns asks for places for their values.
    fn judge_row<F: Files>(
        self,
        files: &mut F,
        cursor: &RowCursor<'_>,
        place: RowPlace,
        look_ups: &mut LookUps,
        report: &mut Report,
    ) -> Result<(), PageFault>
        requires index { IsIndexAt self.index cursor.now }
        requires at { IsAtRow cursor.now }
        requires ready { IfTold F.seen files.old (λ names. IsReady names self look_ups.old) }
        ensures lists { IfTold F.seen files.old (λ names. (row : Row) → IsFound names cursor.now place row
            → AddsIn report_lists result report.old report.new
            (lists_of_row names self.entry.index.at.tree.now row)) }
        ensures visits { IfTold F.seen files.old (λ names. look_ups.new.visits.count
            ≤ look_ups.old.visits.count + look_length names self.entry.index.at.tree.now) }
        ensures reads { IfTold F.seen files.old (λ names.
            ReadAtMost (look_length names self.entry.index.at.tree.now) F.seen files.old files.new) }
        ensures ready { IfTold F.seen files.old (λ names. IsReady names self.entry look_ups.new) }
        ensures asked { Asked F.seen files.old files.new result PageFault.ReadFault }
    {
        let mut key = KeyRefs::new();
        if !self.index.read_key(cursor, &mut key) {
            self.add_doubt(place.tid, report)?;
            return Ok(());
        }
        let key = &key;
        if !self.index.includes() {
            let row = IndexedRow {
                place,
                key,
                more: &[],
            };
            return self.judge_values(files, row, look_ups, report);
        }
        let mut more = MoreRefs::new();
        if !self.index.read_more(cursor, &mut more) {
            self.add_doubt(place.tid, report)?;
            return Ok(());
        }
        let more = more.as_slice();
        self.judge_values(files, IndexedRow { place, key, more }, look_ups, report)
    }

    // Goes to the next row of the page in hand and judges it; whether there is one.
    fn judge_next<F: Files>(
        self,
        files: &mut F,
        cursor: &mut RowCursor<'_>,
        look_ups: &mut LookUps,
        report: &mut Report,
    ) -> Result<bool, PageFault>
        requires index { IsIndexAt self.index cursor.old }
        requires told { IfTold F.seen files.old (λ names. IsWithin names self look_ups.old cursor.old) }
        ensures lists { IfTold F.seen files.old (λ names. Settles result report.old report.new
            (owed_for names self.entry.index.at.tree.now (rows_here names cursor.old))
            (owed_for names self.entry.index.at.tree.now (rows_here names cursor.new))) }
        ensures next { Tells F.seen files.old result (λ found names. found ≡ true
            → length (rows_here names cursor.old) ≡ length (rows_here names cursor.new) + 1) }
        ensures end { Tells F.seen files.old result (λ found names. found ≡ false → rows_here names cursor.new ≡ []) }
        ensures visits { IfTold F.seen files.old (λ names. OnOk result (look_ups.new.visits.count
            + length (rows_here names cursor.new) * look_length names self.entry.index.at.tree.now
            ≤ look_ups.old.visits.count
            + length (rows_here names cursor.old) * look_length names self.entry.index.at.tree.now)) }
        ensures spent { IfTold F.seen files.old (λ names. OnOk result ((F.seen files.new).reads
            + length (rows_here names cursor.new) * look_length names self.entry.index.at.tree.now
            ≤ (F.seen files.old).reads + (value_reads cursor.old
            + length (rows_here names cursor.old) * look_length names self.entry.index.at.tree.now))) }
        ensures reads { IfTold F.seen files.old (λ names. ReadAtMost (value_reads cursor.old
            + length (rows_here names cursor.old) * look_length names self.entry.index.at.tree.now) F.seen files.old
            files.new) }
        ensures told { IfTold F.seen files.old (λ names. IsWithin names self.entry look_ups.new cursor.new) }
        ensures next_block { next_in cursor.new ≡ next_in cursor.old }
        ensures taken { taken_in cursor.new ≡ taken_in cursor.old }
        ensures same { IsSameCursor cursor.old cursor.new }
        ensures asked { Asked F.seen files.old files.new result PageFault.ReadFault }
    {
        let Some(place) = cursor.find_in_block(files)? else {
            return Ok(false);
        };
        self.judge_row(files, &*cursor, place, look_ups, report)?;
        cursor.pass();
        Ok(true)
    }

    // Judges the rows of the page in hand.
    fn judge_block<F: Files>(
        self,
        files: &mut F,
        cursor: &mut RowCursor<'_>,
        look_ups: &mut LookUps,
        report: &mut Report,
    ) -> Result<(), PageFault>
        requires index { IsIndexAt self.index cursor.old }
        requires told { IfTold F.seen files.old (λ names. IsWithin names self look_ups.old cursor.old) }
        requires few { IfTold F.seen files.old (λ names. length (rows_here names cursor.old) ≤ 2042) }
        ensures lists { IfTold F.seen files.old (λ names. AddsIn report_lists result report.old report.new
            (owed_for names self.entry.index.at.tree.now (rows_here names cursor.old))) }
        ensures end { IfTold F.seen files.old (λ names. OnOk result (rows_here names cursor.new ≡ [])) }
        ensures visits { IfTold F.seen files.old (λ names. OnOk result (look_ups.new.visits.count
            ≤ look_ups.old.visits.count
            + length (rows_here names cursor.old) * look_length names self.entry.index.at.tree.now)) }
        ensures reads { IfTold F.seen files.old (λ names. ReadAtMost (value_reads cursor.old * 2042
            + length (rows_here names cursor.old) * look_length names self.entry.index.at.tree.now) F.seen files.old
            files.new) }
        ensures told { IfTold F.seen files.old (λ names. IsWithin names self.entry look_ups.new cursor.new) }
        ensures next_block { next_in cursor.new ≡ next_in cursor.old }
        ensures taken { taken_in cursor.new ≡ taken_in cursor.old }
        ensures same { IsSameCursor cursor.old cursor.new }
        ensures asked { Asked F.seen files.old files.new result PageFault.ReadFault }
    {
        for k in 0..MAX_ITEMS {
            if !self.judge_next(files, cursor, look_ups, report)? {
                return Ok(());
            }
        }
        Ok(())
    }

    // Takes the next block in hand and judges its rows.
    fn judge_next_block<F: Files>(
        self,
        files: &mut F,
        cursor: &mut RowCursor<'_>,
        look_ups: &mut LookUps,
        report: &mut Report,
    ) -> Result<(), PageFault>
        requires index { IsIndexAt self.index cursor.old }
        requires inside { next_in cursor.old < count_of (heap_in self.index.at.heap.now) }
        requires told { IfTold F.seen files.old (λ names. IsBetween names self look_ups.old cursor.old) }
        ensures lists { IfTold F.seen files.old (λ names. AddsIn report_lists result report.old report.new
            (owed_for names self.entry.index.at.tree.now
            (block_rows self.entry.index.at.case.now names (next_in cursor.old)))) }
        ensures visits { IfTold F.seen files.old (λ names. OnOk result (look_ups.new.visits.count
            ≤ look_ups.old.visits.count + length (block_rows self.entry.index.at.case.now names (next_in cursor.old))
            * look_length names self.entry.index.at.tree.now)) }
        ensures reads { IfTold F.seen files.old (λ names. ReadAtMost
            (page_reads (heap_at cursor.old) (columns_at cursor.old)
            + length (block_rows self.entry.index.at.case.now names (next_in cursor.old))
            * look_length names self.entry.index.at.tree.now) F.seen files.old files.new) }
        ensures ready { IfTold F.seen files.old (λ names. IsReady names self.entry look_ups.new) }
        ensures told { IfTold F.seen files.old (λ names. OnOk result
            (IsBetween names self.entry look_ups.new cursor.new)) }
        ensures next_block { OnOk result (next_in cursor.new ≡ next_in cursor.old + 1) }
        ensures taken { taken_in cursor.new ≤ taken_in cursor.old + 1 }
        ensures same { IsSameCursor cursor.old cursor.new }
        ensures asked { Asked F.seen files.old files.new result PageFault.ReadFault }
    {
        cursor.take_block(files)?;
        self.judge_block(files, cursor, look_ups, report)
    }

    /// Judges the rows of the blocks from a cursor's next up to another: adds each that has no entry (X1), and each of
    /// which a value in the index is compressed (U6). Each of these blocks is taken in hand once at most, and each of
    /// their rows is looked up once at most, which bounds how often files are read.
    pub fn judge_blocks<F: Files>(
        self,
        files: &mut F,
        cursor: &mut RowCursor<'_>,
        end: u32,
        look_ups: &mut LookUps,
        report: &mut Report,
    ) -> Result<(), PageFault>
        requires index { IsIndexAt self.index cursor.old }
        requires end { end ≤ count_of (heap_in self.index.at.heap.now) }
        requires told { IfTold F.seen files.old (λ names. IsBetween names self look_ups.old cursor.old) }
        ensures lists { IfTold F.seen files.old (λ names. AddsIn report_lists result report.old report.new
            (owed_for names self.entry.index.at.tree.now
            (rows_from self.entry.index.at.case.now names (next_in cursor.old) (end - next_in cursor.old)))) }
        ensures visits { IfTold F.seen files.old (λ names. OnOk result (look_ups.new.visits.count
            ≤ look_ups.old.visits.count
            + length (rows_from self.entry.index.at.case.now names (next_in cursor.old) (end - next_in cursor.old))
            * look_length names self.entry.index.at.tree.now)) }
        ensures reads { IfTold F.seen files.old (λ names. ReadAtMost
            (page_reads (heap_at cursor.old) (columns_at cursor.old) * (end - next_in cursor.old)
            + length (rows_from self.entry.index.at.case.now names (next_in cursor.old) (end - next_in cursor.old))
            * look_length names self.entry.index.at.tree.now) F.seen files.old files.new) }
        ensures ready { IfTold F.seen files.old (λ names. IsReady names self.entry look_ups.new) }
        ensures told { IfTold F.seen files.old (λ names. OnOk result
            (IsBetween names self.entry look_ups.new cursor.new)) }
        ensures next_block { OnOk result (next_in cursor.new ≡ next_in cursor.old + (end - next_in cursor.old)) }
        ensures taken { taken_in cursor.new ≤ taken_in cursor.old + (end - next_in cursor.old) }
        ensures same { IsSameCursor cursor.old cursor.new }
        ensures asked { Asked F.seen files.old files.new result PageFault.ReadFault }
    {
        let count = end.saturating_sub(cursor.next_block());
        for k in 0..count {
            self.judge_next_block(files, cursor, look_ups, report)?;
        }
        Ok(())
    }
}
