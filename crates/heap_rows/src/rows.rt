//! The live rows of a heap, one after the other.
ghost use Rattle.std.specs.Prelude.{◌≡◌, ◌-◌, ◌∷◌, List, Some, IfOk, IfSome, OnErr};
ghost use Rattle.outside.specs.Outside.{Asked, IfTold, Names, Tells};
ghost use Rattle.heap_table_check.specs.Case.{heap_blocks};
ghost use Rattle.heap_table_check.specs.Found.{IsQuiet};
ghost use Rattle.heap_table_check.specs.Files.{BelongTo, IsSoundHeapOf, files_of};
ghost use Rattle.heap_rows.specs.RowCursor.{IsAtRow};
ghost use Rattle.heap_rows.specs.RowFits.{FitColumns};
ghost use Rattle.heap_rows.specs.RowPages.{IsFirst, IsRow};
ghost use Rattle.heap_rows.specs.Rows.{block_rows, each_from, rows_of};
ghost use Rattle.heap_rows.specs.declared.rows.LiveRow.{LiveRow as Row};

use crate::row_cells::Cells;
use crate::row_cursor::{RowCursor, RowPlace};
use crate::row_values::AskedColumns;
use case_file::Case;
use heap_table_check::SoundHeap;
use key_orders::Tid;
use outside::{Files, NoMemory};
use rel_files::PageFault;
use std::alloc::Global;

/// A live tuple of a heap.
#[derive(Drop)]
pub struct LiveRow {
    /// Its place.
    pub tid: Tid,
    /// The place from which its chain of versions starts, and which index entries name: the lowest
    /// root from which it is found.
    pub root: Tid,
    /// What its columns are, one cell for each column of the case.
    pub cells: Cells,
}

/// The live rows of a heap in which nothing was found, by rising TID: a cursor that is asked for all columns,
/// whose values are copied. It stores one page of the heap: each block is read once. It is used
/// with the files and the case that the heap was made with.
#[derive(Drop)]
pub struct LiveRows<'a> {
    pub(crate) cursor: RowCursor<'a>,
}

impl<'a> LiveRows<'a> {
    ghost use Rattle.heap_rows.specs.LiveRows.{AreRowsOf, IsSameHeap, case_of, heap_of, rows_left};

    /// A cursor before the first row. No block is read yet.
    pub fn new(alloc: Global, case: &'a Case, heap: &'a SoundHeap) -> Result<LiveRows<'a>, NoMemory>
        requires belong { BelongTo case.now (files_of heap.now) }
        ensures told { IfOk result (λ rows. (names : Names) → IsSoundHeapOf case.now names heap.now
            → IsQuiet case.now names → AreRowsOf names rows) }
        ensures all { IfOk result (λ rows. (names : Names) → rows_left names rows ≡ rows_of case.now names) }
        ensures case { IfOk result (λ rows. case_of rows ≡ case.now) }
        ensures heap { IfOk result (λ rows. heap_of rows ≡ heap.now) }
    {
        let cursor = RowCursor::asking(alloc, case, heap, AskedColumns::All)?;
        Ok(LiveRows { cursor })
    }

    // The cells of the row that was found; none where not all columns are asked for, which can't be.
    fn cells(&self, alloc: Global) -> Result<Option<Cells>, NoMemory>
        requires at { IsAtRow self.now.cursor }
        ensures cells { IfOk result (λ found. (names : Names) (row : Row) (rows : List Row) → AreRowsOf names self.now
            → rows_left names self.now ≡ row ∷ rows → found ≡ Some row.cells) }
        ensures fits { IfOk result (λ found. IfSome found (FitColumns (case_of self.now).columns)) }
    {
        if !self.cursor.asked.is_all() {
            return Ok(None);
        }
        let mut cells = Cells::new(alloc);
        for k in 0..self.cursor.case.columns().len() {
            cells.push(self.cursor.value(k).to_cell(alloc)?)?;
        }
        Ok(Some(cells))
    }

    /// Goes to the beginning of a block, counted from 0: then the rows of this block and of those behind it are left.
    /// Nothing is read for it, and no memory taken.
    pub fn seek_block(&mut self, block: u32)
        ensures left { (names : Names) → rows_left names self.new
            ≡ each_from (block_rows (case_of self.old) names) block (heap_blocks (case_of self.old) names - block) }
        ensures told { (names : Names) → AreRowsOf names self.old → AreRowsOf names self.new }
        ensures heap { IsSameHeap self.old self.new }
    {
        self.cursor.go_to(block);
    }

    /// The next live row, by rising TID; `None` exactly where none is left.
    ///
    /// `ReadFault` comes only where the count of the files' faults rose. After an error the cursor
    /// stays before the same row.
    pub fn next_row<F: Files>(
        &mut self,
        alloc: Global,
        files: &mut F,
    ) -> Result<Option<LiveRow>, PageFault>
        requires told { IfTold F.seen files.old (λ names. AreRowsOf names self.old) }
        ensures first { Tells F.seen files.old result (λ found names.
            IsFirst found (rows_left names self.old) (rows_left names self.new)) }
        ensures left { OnErr result (IfTold F.seen files.old (λ names.
            rows_left names self.new ≡ rows_left names self.old)) }
        ensures row { IfOk result (λ found. IfSome found (IsRow (case_of self.old).columns)) }
        ensures told { IfTold F.seen files.old (λ names. AreRowsOf names self.new) }
        ensures heap { IsSameHeap self.old self.new }
        ensures asked { Asked F.seen files.old files.new result PageFault.ReadFault }
    {
        let Some(RowPlace { tid, root }) = self.cursor.find(files)? else {
            return Ok(None);
        };
        let Some(cells) = self.cells(alloc)? else {
            return Ok(None);
        };
        self.cursor.pass();
        Ok(Some(LiveRow { tid, root, cells }))
    }
}
