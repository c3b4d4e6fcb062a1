//! A cursor over the live rows of a heap, which lends the values of the columns that are asked for.
ghost use Rattle.std.specs.Prelude.{◌≡◌, ◌+◌, ◌-◌, ◌<◌, ◌≤◌, ◌∷◌, [], All, List, false, true, drop, length, slice_get};
ghost use Rattle.std.specs.Prelude.{Some, None};
ghost use Rattle.std.specs.Prelude.{IfOk, IfSome, OnErr, OnOk};
ghost use Rattle.outside.specs.Counting.{one_more};
ghost use Rattle.outside.specs.Outside.{AskedAtMost, IfTold, Names, Tells};
ghost use Rattle.liveness.specs.LogFiles.{log_files_of};
ghost use Rattle.rel_files.specs.Relation.{count_of};
ghost use Rattle.case_file.specs.declared.case.Column.{Column as TableColumn};
ghost use Rattle.heap_table_check.specs.Found.{IsQuiet};
ghost use Rattle.heap_table_check.specs.CaseLogs.{log_files_kept};
ghost use Rattle.heap_table_check.specs.Files.{BelongTo, IsSoundHeapOf, files_of, heap_in};
ghost use Rattle.heap_rows.specs.RowFits.{FitsColumn, HasMissing};
ghost use Rattle.heap_rows.specs.RowCursor.{AreAsked};
ghost use Rattle.heap_rows.specs.RowValues.{AsksColumns, FitsPlace, cell_lent, cell_shown, column_asked, count_asked};
ghost use Rattle.heap_rows.specs.RowPages.{cell_found};
ghost use Rattle.heap_rows.specs.Rows.{block_rows, rows_of};
ghost use Rattle.heap_rows.specs.declared.rows.LiveRow.{LiveRow as Row};
ghost use Rattle.heap_rows.specs.declared.row_values.AskedColumns.TheVariants as asked;

use crate::row_cells::CellRef;
use crate::row_page::RowPage;
use crate::row_values::{AskedColumns, ValuePlace, ValueSources, starts_of};
use case_file::{Case, Column};
use heap_table_check::{CaseLogs, SoundHeap, heap_rules, toast_table};
use key_orders::{Tid, ValueRef, value_of};
use outside::{Files, NoMemory};
use rel_files::PageFault;
use std::alloc::Global;
use varlena_attrs::ColumnLayout;

/// Where a live tuple stands, and where its chain of versions starts: the lowest root from which it is
/// found, which index entries name.
#[derive(Clone, Copy, Debug, PartialEq, Eq)]
pub struct RowPlace {
    pub tid: Tid,
    pub root: Tid,
}

/// A cursor over the live rows of a heap in which nothing was found, by rising TID, which lends of each the
/// values of the columns that are asked for as they lie on its page. It stores one page of the heap, and the
/// bytes of those values of a row that stand in the TOAST table: each block is read once, nothing of it is
/// judged again, and no row takes memory of its own. It is used with the files and the case that the heap was
/// made with.
#[derive(Drop)]
pub struct RowCursor<'a> {
    pub(crate) case: &'a Case,
    pub(crate) heap: &'a SoundHeap,
    pub(crate) asked: AskedColumns,
    // Where the columns that are asked for begin in tuples without nulls, as far as that is known.
    pub(crate) starts: Vec<Option<usize>>,
    pub(crate) logs: CaseLogs,
    // The block that was read last.
    pub(crate) page: RowPage,
    // How many blocks were read.
    pub(crate) next: u32,
    // How many times a block was taken in hand.
    pub(crate) taken: u64,
}

// The value of a column that stands at a place: in a page, or among bytes that were joined.
fn value_at<'p>(
    page: &'p [u8; 8192],
    joined: &'p [u8],
    column: &'p Column,
    at: ValuePlace,
) -> CellRef<'p>
    requires fits { FitsPlace (length joined.now) column.now.ctype at }
    requires missing { HasMissing column.now }
    ensures cell { cell_lent result ≡ cell_shown page.now joined.now column.now at }
    ensures fits { FitsColumn column.now (cell_lent result) }
{
    match at {
        ValuePlace::Null => CellRef::Held(ValueRef::Null),
        ValuePlace::Missing => CellRef::Held(column.missing.as_ref()),
        ValuePlace::OnPage { start, len } => {
            CellRef::Held(value_of(column.ctype, &page[start..start + len]))
        }
        ValuePlace::Joined { start, len } => {
            CellRef::Held(ValueRef::Bytes(&joined[start..start + len]))
        }
        ValuePlace::Packed => CellRef::Packed,
    }
}

impl<'a> RowCursor<'a> {
    ghost use Rattle.heap_rows.specs.RowCursor.{IsAtRow, IsCursorOf, IsPageDone, IsPlaceOfFirst, IsSameCursor};
    ghost use Rattle.heap_rows.specs.RowCursor.{asked_at, case_at, heap_at, line_pointers_of, next_in, rows_ahead};
    ghost use Rattle.heap_rows.specs.RowCursor.{rows_here, taken_in};
    ghost use Rattle.heap_rows.specs.Reads.{ReadAtMost, block_reads, value_reads, way_reads};

    // A cursor before the first row, which is asked for these columns. No block is read yet.
    pub(crate) fn asking(
        alloc: Global,
        case: &'a Case,
        heap: &'a SoundHeap,
        asked: AskedColumns,
    ) -> Result<RowCursor<'a>, NoMemory>
        requires belong { BelongTo case.now (files_of heap.now) }
        requires asked { AsksColumns (length case.now.columns) asked }
        ensures told { IfOk result (λ cursor. (names : Names) → IsSoundHeapOf case.now names heap.now
            → IsQuiet case.now names → IsCursorOf names cursor) }
        ensures all { IfOk result (λ cursor. (names : Names) → rows_ahead names cursor ≡ rows_of case.now names) }
        ensures begun { IfOk result (λ cursor. next_in cursor ≡ 0) }
        ensures taken { IfOk result (λ cursor. taken_in cursor ≡ 0) }
        ensures none { IfOk result (λ cursor. (names : Names) → rows_here names cursor ≡ []) }
        ensures case { IfOk result (λ cursor. case_at cursor ≡ case.now) }
        ensures heap { IfOk result (λ cursor. heap_at cursor ≡ heap.now) }
        ensures asked { IfOk result (λ cursor. asked_at cursor ≡ asked) }
    {
        let logs = CaseLogs::new(alloc, case)?;
        let page = RowPage::new(alloc);
        case.sound();
        let starts = starts_of(alloc, case.column_types(), &asked)?;
        Ok(RowCursor {
            case,
            heap,
            asked,
            starts,
            logs,
            page,
            next: 0,
            taken: 0,
        })
    }

    /// A cursor before the first row, which is asked for these columns, by their numbers in the case, counted
    /// from 0. No block is read yet.
    pub fn new(
        alloc: Global,
        case: &'a Case,
        heap: &'a SoundHeap,
        columns: &[u16],
    ) -> Result<RowCursor<'a>, NoMemory>
        requires belong { BelongTo case.now (files_of heap.now) }
        requires asked { All (λ k. k < length case.now.columns) columns.now }
        ensures told { IfOk result (λ cursor. (names : Names) → IsSoundHeapOf case.now names heap.now
            → IsQuiet case.now names → IsCursorOf names cursor) }
        ensures all { IfOk result (λ cursor. (names : Names) → rows_ahead names cursor ≡ rows_of case.now names) }
        ensures begun { IfOk result (λ cursor. next_in cursor ≡ 0) }
        ensures taken { IfOk result (λ cursor. taken_in cursor ≡ 0) }
        ensures none { IfOk result (λ cursor. (names : Names) → rows_here names cursor ≡ []) }
        ensures case { IfOk result (λ cursor. case_at cursor ≡ case.now) }
        ensures heap { IfOk result (λ cursor. heap_at cursor ≡ heap.now) }
        ensures asked { IfOk result (λ cursor. AreAsked columns.now (asked_at cursor)) }
    {
        let mut numbers = Vec::new(alloc);
        numbers.extend_from_slice(columns)?;
        RowCursor::asking(alloc, case, heap, AskedColumns::Only(numbers))
    }

    // Finds the next live row of the page in hand; whether there is one.
    fn find_in_hand<F: Files>(&mut self, files: &mut F) -> Result<bool, PageFault>
        requires told { IfTold F.seen files.old (λ names. IsCursorOf names self.old) }
        ensures left { IfTold F.seen files.old (λ names. rows_ahead names self.new ≡ rows_ahead names self.old) }
        ensures here { IfTold F.seen files.old (λ names. rows_here names self.new ≡ rows_here names self.old) }
        ensures done { Tells F.seen files.old result (λ found names. found ≡ false → IsPageDone names self.new) }
        ensures at { IfOk result (λ found. found ≡ true → IsAtRow self.new) }
        ensures told { IfTold F.seen files.old (λ names. IsCursorOf names self.new) }
        ensures same { IsSameCursor self.old self.new }
        ensures next { self.new.next ≡ self.old.next }
        ensures taken { taken_in self.new ≡ taken_in self.old }
        ensures asked { AskedAtMost (value_reads self.old) F.seen files.old files.new result PageFault.ReadFault }
    {
        let case = self.case;
        let heap = self.heap;
        let from = ValueSources {
            columns: case.columns(),
            toast: heap.toast(),
            chunks: heap.chunks(),
            asked: &self.asked,
            starts: &self.starts,
        };
        case.sound();
        self.page.find(files, &from, case.column_types())
    }

    // Takes the next block of the heap in hand. After an error no page is in hand, and it is still the
    // next.
    fn take_next<F: Files>(&mut self, files: &mut F) -> Result<(), PageFault>
        requires told { IfTold F.seen files.old (λ names. IsCursorOf names self.old) }
        requires done { IfTold F.seen files.old (λ names. IsPageDone names self.old) }
        requires inside { self.old.next < count_of (heap_in (heap_at self.old)) }
        ensures left { IfTold F.seen files.old (λ names. rows_ahead names self.new ≡ rows_ahead names self.old) }
        ensures here { OnOk result (IfTold F.seen files.old (λ names. rows_here names self.new
            ≡ block_rows (case_at self.old) names self.old.next)) }
        ensures count { OnOk result (IfTold F.seen files.old (λ names. self.new.page.count
            ≡ line_pointers_of (case_at self.old) names self.old.next)) }
        ensures few { self.new.page.count ≤ 2042 }
        ensures told { IfTold F.seen files.old (λ names. IsCursorOf names self.new) }
        ensures same { IsSameCursor self.old self.new }
        ensures next { OnOk result (self.new.next ≡ self.old.next + 1) }
        ensures onward { (self.old.next ≤ self.new.next) × (self.new.next ≤ self.old.next + 1) }
        ensures taken { taken_in self.new ≡ one_more (taken_in self.old) }
        ensures asked { AskedAtMost (block_reads (heap_at self.old) (next_in self.old)) F.seen files.old files.new
            result PageFault.ReadFault }
    {
        let case = self.case;
        let heap = self.heap;
        case.sound();
        let columns = ColumnLayout::new(case.column_types());
        let toast = toast_table(case, heap.chunks());
        let table = heap_rules(&columns, toast, &self.logs);
        let blocks = heap.heap().blocks();
        let next = self.next;
        prove!(next < blocks);
        self.taken = self.taken.saturating_add(1);
        self.page.take(files, &table, heap, next)?;
        self.next = next + 1;
        Ok(())
    }

    // Takes the next block in hand, and finds its first row; whether it has one.
    fn find_in_next<F: Files>(&mut self, files: &mut F) -> Result<bool, PageFault>
        requires told { IfTold F.seen files.old (λ names. IsCursorOf names self.old) }
        requires done { IfTold F.seen files.old (λ names. IsPageDone names self.old) }
        requires inside { self.old.next < count_of (heap_in (heap_at self.old)) }
        ensures left { IfTold F.seen files.old (λ names. rows_ahead names self.new ≡ rows_ahead names self.old) }
        ensures done { Tells F.seen files.old result (λ found names. found ≡ false → IsPageDone names self.new) }
        ensures at { IfOk result (λ found. found ≡ true → IsAtRow self.new) }
        ensures told { IfTold F.seen files.old (λ names. IsCursorOf names self.new) }
        ensures same { IsSameCursor self.old self.new }
        ensures next { OnOk result (self.new.next ≡ self.old.next + 1) }
        ensures onward { (self.old.next ≤ self.new.next) × (self.new.next ≤ self.old.next + 1) }
        ensures asked { AskedAtMost (block_reads (heap_at self.old) (next_in self.old) + value_reads self.old) F.seen
            files.old files.new result PageFault.ReadFault }
    {
        self.take_next(files)?;
        self.find_in_hand(files)
    }

    // Goes to the next live row, in whichever block it stands; whether there is one.
    fn seek<F: Files>(&mut self, files: &mut F) -> Result<bool, PageFault>
        requires told { IfTold F.seen files.old (λ names. IsCursorOf names self.old) }
        ensures left { IfTold F.seen files.old (λ names. rows_ahead names self.new ≡ rows_ahead names self.old) }
        ensures end { Tells F.seen files.old result (λ found names. found ≡ false → rows_ahead names self.new ≡ []) }
        ensures at { IfOk result (λ found. found ≡ true → IsAtRow self.new) }
        ensures told { IfTold F.seen files.old (λ names. IsCursorOf names self.new) }
        ensures same { IsSameCursor self.old self.new }
        ensures next { next_in self.old ≤ next_in self.new }
        ensures within { next_in self.old ≤ count_of (heap_in (heap_at self.old))
            → next_in self.new ≤ count_of (heap_in (heap_at self.old)) }
        ensures asked { AskedAtMost (way_reads self.old (next_in self.new - next_in self.old + 1)) F.seen files.old
            files.new result PageFault.ReadFault }
        ensures most { OnOk result (ReadAtMost (way_reads self.old (next_in self.new - next_in self.old)) F.seen
            files.old files.new) }
    {
        if self.find_in_hand(files)? {
            return Ok(true);
        }
        for _ in self.next..self.heap.heap().blocks() {
            if self.find_in_next(files)? {
                return Ok(true);
            }
        }
        Ok(false)
    }

    // The place of the row that was found.
    fn place(&self) -> RowPlace
        requires at { IsAtRow self.now }
        ensures first { (names : Names) → IsCursorOf names self.now
            → IsPlaceOfFirst (Some result) (rows_ahead names self.now) }
        ensures here { (names : Names) → IsCursorOf names self.now
            → IsPlaceOfFirst (Some result) (rows_here names self.now) }
        ensures some { (1 ≤ result.tid.item) × (1 ≤ result.root.item) }
    {
        let block = self.page.block;
        let item = self.page.done + 1;
        RowPlace {
            tid: Tid { block, item },
            root: Tid {
                block,
                item: self.page.roots.root_of(item),
            },
        }
    }

    /// Goes to the next live row, by rising TID, and finds its values that are asked for; `None` exactly where
    /// none is left. Until it is passed it stays the next. Each block on the way is taken in hand once, the last one
    /// perhaps in vain.
    ///
    /// `ReadFault` comes only where the count of the files' faults rose. After an error the same row is next.
    pub fn find<F: Files>(&mut self, files: &mut F) -> Result<Option<RowPlace>, PageFault>
        requires told { IfTold F.seen files.old (λ names. IsCursorOf names self.old) }
        ensures left { IfTold F.seen files.old (λ names. rows_ahead names self.new ≡ rows_ahead names self.old) }
        ensures first { Tells F.seen files.old result (λ found names.
            IsPlaceOfFirst found (rows_ahead names self.new)) }
        ensures at { IfOk result (λ found. IfSome found (λ place. IsAtRow self.new)) }
        ensures some { IfOk result (λ found. IfSome found (λ place. (1 ≤ place.tid.item) × (1 ≤ place.root.item))) }
        ensures told { IfTold F.seen files.old (λ names. IsCursorOf names self.new) }
        ensures same { IsSameCursor self.old self.new }
        ensures next { next_in self.old ≤ next_in self.new }
        ensures within { next_in self.old ≤ count_of (heap_in (heap_at self.old))
            → next_in self.new ≤ count_of (heap_in (heap_at self.old)) }
        ensures asked { AskedAtMost (way_reads self.old (next_in self.new - next_in self.old + 1)) F.seen files.old
            files.new result PageFault.ReadFault }
        ensures most { OnOk result (ReadAtMost (way_reads self.old (next_in self.new - next_in self.old)) F.seen
            files.old files.new) }
    {
        if self.seek(files)? {
            return Ok(Some(self.place()));
        }
        Ok(None)
    }

    /// The block that is taken in hand next.
    pub fn next_block(&self) -> u32
        ensures { result ≡ next_in self.now }
    {
        self.next
    }

    /// How many times a block was taken in hand so far, also where it couldn't be read. At its last value the count
    /// stays.
    pub fn taken(&self) -> u64
        ensures { result ≡ taken_in self.now }
    {
        self.taken
    }

    /// Goes to the beginning of a block, which is the next then. No page is in hand.
    pub fn go_to(&mut self, block: u32)
        ensures here { (names : Names) → rows_here names self.new ≡ [] }
        ensures told { (names : Names) → IsCursorOf names self.old → IsCursorOf names self.new }
        ensures next { next_in self.new ≡ block }
        ensures taken { taken_in self.new ≡ taken_in self.old }
        ensures same { IsSameCursor self.old self.new }
    {
        self.page.count = 0;
        self.page.done = 0;
        self.page.found = false;
        self.next = block;
    }

    /// Takes the next block in hand, and gives the number of its page's line pointers. It is read once, and the logs
    /// only where its page isn't known to be plain.
    ///
    /// `ReadFault` comes only where the count of the files' faults rose. After an error no page is in hand, and the
    /// same block is next.
    pub fn take_block<F: Files>(&mut self, files: &mut F) -> Result<u16, PageFault>
        requires told { IfTold F.seen files.old (λ names. IsCursorOf names self.old) }
        requires done { IfTold F.seen files.old (λ names. rows_here names self.old ≡ []) }
        requires inside { next_in self.old < count_of (heap_in (heap_at self.old)) }
        ensures here { OnOk result (IfTold F.seen files.old (λ names. rows_here names self.new
            ≡ block_rows (case_at self.old) names (next_in self.old))) }
        ensures count { Tells F.seen files.old result (λ items names. items
            ≡ line_pointers_of (case_at self.old) names (next_in self.old)) }
        ensures few { IfOk result (λ items. items ≤ 2042) }
        ensures told { IfTold F.seen files.old (λ names. IsCursorOf names self.new) }
        ensures same { IsSameCursor self.old self.new }
        ensures next { OnOk result (next_in self.new ≡ next_in self.old + 1) }
        ensures taken { taken_in self.new ≡ one_more (taken_in self.old) }
        ensures asked { AskedAtMost (block_reads (heap_at self.old) (next_in self.old)) F.seen files.old files.new
            result PageFault.ReadFault }
    {
        self.take_next(files)?;
        Ok(self.page.count)
    }

    /// Goes to the next live row of the block in hand, by rising TID, and finds its values that are asked for; `None`
    /// exactly where none is left. Until it is passed it stays the next. Files are read only for values in the TOAST
    /// table.
    ///
    /// `ReadFault` comes only where the count of the files' faults rose. After an error the same row is next.
    pub fn find_in_block<F: Files>(&mut self, files: &mut F) -> Result<Option<RowPlace>, PageFault>
        requires told { IfTold F.seen files.old (λ names. IsCursorOf names self.old) }
        ensures here { IfTold F.seen files.old (λ names. rows_here names self.new ≡ rows_here names self.old) }
        ensures first { Tells F.seen files.old result (λ found names.
            IsPlaceOfFirst found (rows_here names self.new)) }
        ensures at { IfOk result (λ found. IfSome found (λ place. IsAtRow self.new)) }
        ensures some { IfOk result (λ found. IfSome found (λ place. (1 ≤ place.tid.item) × (1 ≤ place.root.item))) }
        ensures told { IfTold F.seen files.old (λ names. IsCursorOf names self.new) }
        ensures next { next_in self.new ≡ next_in self.old }
        ensures taken { taken_in self.new ≡ taken_in self.old }
        ensures same { IsSameCursor self.old self.new }
        ensures asked { AskedAtMost (value_reads self.old) F.seen files.old files.new result PageFault.ReadFault }
    {
        if self.find_in_hand(files)? {
            return Ok(Some(self.place()));
        }
        Ok(None)
    }

    /// The value of the k-th column that is asked for, counted from 0, in the row that was found: as it lies on
    /// its page, as the case gives it where it is missing, as it was joined from the TOAST table, or that it is
    /// compressed.
    pub fn value(&self, k: usize) -> CellRef<'_>
        requires at { IsAtRow self.now }
        requires inside { k < count_asked (length (case_at self.now).columns) (asked_at self.now) }
        ensures cell { (names : Names) (row : Row) (rows : List Row) → IsCursorOf names self.now
            → rows_ahead names self.now ≡ row ∷ rows
            → slice_get row.cells (column_asked (asked_at self.now) k) ≡ Some (cell_lent result) }
        ensures fits { (column : TableColumn)
            → slice_get (case_at self.now).columns (column_asked (asked_at self.now) k) ≡ Some column
            → FitsColumn column (cell_lent result) }
    {
        let case = self.case;
        case.sound();
        let column = &case.columns()[self.asked.column(k)];
        let values = &self.page.values;
        value_at(&self.page.bytes, &values.joined, column, values.places[k])
    }

    /// Goes past the row that was found.
    pub fn pass(&mut self)
        requires at { IsAtRow self.old }
        ensures left { (names : Names) → IsCursorOf names self.old
            → rows_ahead names self.new ≡ drop 1 (rows_ahead names self.old) }
        ensures here { (names : Names) → IsCursorOf names self.old
            → rows_here names self.new ≡ drop 1 (rows_here names self.old) }
        ensures told { (names : Names) → IsCursorOf names self.old → IsCursorOf names self.new }
        ensures next { next_in self.new ≡ next_in self.old }
        ensures taken { taken_in self.new ≡ taken_in self.old }
        ensures same { IsSameCursor self.old self.new }
    {
        self.page.found = false;
        self.page.done += 1;
    }
}
